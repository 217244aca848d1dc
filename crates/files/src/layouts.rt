// Where everything stands in a file, printed.
use super::printing::show;
use std::io;
use taskset::{CoreLayout, Layout};

fn core(rt: &impl Print, c: CoreLayout) -> io::Result<()> {
    println!(rt;
        "{} {} {} {} {}  {}",
        c.size, c.inputs, c.limit, c.base, c.code, c.length
    )
}

// Of a refused file nothing stands anywhere.
pub fn layout(rt: &impl Print, f: &[u8]) -> io::Result<()> {
    let none = Layout {
        cores: 0,
        variables: 0,
        first: 0,
        core: [taskset::no_core(); 4],
    };
    let l = file_loading::load_file(f).unwrap_or(none);
    show(rt, "cores", l.cores)?;
    show(rt, "variables", l.variables)?;
    show(rt, "first record", l.first)?;
    for c in l.core {
        core(rt, c)?;
    }
    Ok(())
}
