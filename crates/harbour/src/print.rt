// What the program prints.
use rules::Answer;
use std::io;

// The line of the five fields, and the text if it is finished. What could not be written is the program's error.
pub fn print_answer(rt: &impl Print, a: Answer, out: &[u8]) -> io::Result<()> {
    println!(rt;
        "{} {} {} {} {}",
        a.number, a.kind, a.place, a.steps, a.bytes
    )?;
    if a.number == 0
        && let Some(text) = out.get(..a.bytes as usize)
    {
        rt.write_all(text)?;
    }
    Ok(())
}
