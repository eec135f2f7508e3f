// What a program prints, where a write may fail.
ghost use Rattle.std.specs.Prelude.{IsOk};

use std::fmt::Display;
use std::io;

// A printer that goes on: a write that fails stops none of those that follow it, and none ends the program.
#[derive(Clone, Copy)]
pub struct GoesOn<'a, P>(pub &'a P);

impl<P: Print> Print for GoesOn<'_, P> {
    fn print<D: Display + Drop>(&self, value: D) -> io::Result<()>
        ensures { IsOk result }
    {
        let _ = self.0.print(value);
        Ok(())
    }

    fn println<D: Display + Drop>(&self, value: D) -> io::Result<()>
        ensures { IsOk result }
    {
        let _ = self.0.println(value);
        Ok(())
    }

    fn write_all(&self, bytes: &[u8]) -> io::Result<()>
        ensures { IsOk result }
    {
        let _ = self.0.write_all(bytes);
        Ok(())
    }

    // Of some of the bytes: who asks how many were written is told of a failure too.
    fn write_some(&self, bytes: &[u8]) -> io::Result<usize> {
        self.0.write_some(bytes)
    }
}
