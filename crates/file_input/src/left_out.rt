// Printing in which what cannot be written is left out, and what comes behind it is tried, for the programs that print answers to compare.
use std::fmt::Display;
use std::io;

/// Whoever prints on it is told that all went well.
#[derive(Clone, Copy)]
pub struct LeftOut<'a, P>(pub &'a P);

impl<P: Print> Print for LeftOut<'_, P> {
    fn print<D: Display + Drop>(&self, value: D) -> io::Result<()> {
        let _ = self.0.print(value);
        Ok(())
    }

    fn println<D: Display + Drop>(&self, value: D) -> io::Result<()> {
        let _ = self.0.println(value);
        Ok(())
    }

    fn write_all(&self, bytes: &[u8]) -> io::Result<()> {
        let _ = Print::write_all(self.0, bytes);
        Ok(())
    }
}
