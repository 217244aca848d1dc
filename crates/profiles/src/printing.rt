// A row of types: its name, and a number for each type from 0 to 11.
use std::io;

pub fn row<F: Fn(u8) -> u8>(rt: &impl Print, name: &str, code: u8, judged: F) -> io::Result<()>
    requires { F.IsAlwaysCallable judged }
{
    print!(rt; "{name} {code}:")?;
    for t in 0..12 {
        print!(rt; " {}", judged(t))?;
    }
    println!(rt;)
}
