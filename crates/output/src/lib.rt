// Output that no program's end hangs on: what can't be written is lost, what later prints have is still tried, and whoever prints goes on as if all had been written.
#![tactic(auto)]

ghost use Rattle.std.specs.Prelude.{◌≡◌, Ok};

use std::fmt::Display;
use std::io::Result;

// What prints for a program, with a failed write passed over.
#[derive(Drop)]
pub struct Output<'a, P: Print> {
    pub to: &'a P,
}

impl<P: Print> Print for Output<'_, P> {
    fn print<D: Display + Drop>(&self, value: D) -> Result<()>
        ensures { result ≡ Ok tt }
    {
        let _written = self.to.print(value);
        Ok(())
    }

    fn println<D: Display + Drop>(&self, value: D) -> Result<()>
        ensures { result ≡ Ok tt }
    {
        let _written = self.to.println(value);
        Ok(())
    }

    fn write_all(&self, bytes: &[u8]) -> Result<()>
        ensures { result ≡ Ok tt }
    {
        let _written = self.to.write_all(bytes);
        Ok(())
    }
}
