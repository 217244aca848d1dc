// One case: what a file takes, and what is printed of it.
use bounds::Taken;
use std::io;

// Of a refused file all lengths, counts and depths are 0.
pub fn case(rt: &impl Print, label: &str, file: &[u8]) -> io::Result<()> {
    let answer = bounds::takes(file);
    let none = Taken {
        buffer: 0,
        shared: 0,
        table: 0,
        count: [0; 4],
        depth: [0; 4],
    };
    let taken = answer.unwrap_or(none);
    let refusal = verdict::refusal_of(answer);
    print!(rt;
        "{label}: {refusal} {} {} {}",
        taken.buffer, taken.shared, taken.table
    )?;
    for n in taken.count {
        print!(rt; " {n}")?;
    }
    for n in taken.depth {
        print!(rt; " {n}")?;
    }
    println!(rt;)
}
