// A row of fields that a case changes.
ghost use Rattle.cases.specs.Changed.{Changes};

use rows::Numbers;

// Makes the change that comes next, a field and its value, and gives both; a field that there is none of changes nothing.
pub fn change(fields: &mut [u64], numbers: &mut Numbers) -> Option<(usize, u64)>
    ensures { Changes fields.old numbers.old.rest.now result fields.new numbers.new.rest.now }
{
    let at = numbers.number() as usize;
    let value = numbers.number();
    if at < fields.len() {
        fields[at] = value;
        Some((at, value))
    } else {
        None
    }
}
