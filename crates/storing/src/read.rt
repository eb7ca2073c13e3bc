// One span's id from a stored result.
ghost use Rattle.std.specs.Prelude.{◌≤◌};

use console::{fail, has_more, number, read_full};
use std::io::{Read, Result};
use stored::into::id_at_into;

// The number that the text is; one that no stored result has where it is none or above 99,999,999.
pub(crate) fn span(text: &[u8]) -> u32 {
    number(text, 99999999).unwrap_or(u32::MAX)
}

// In the form that C gets, since it has a refusal's number.
fn print_found(rt: &impl Print, bytes: &[u8], span: u32) -> Result<()> {
    let mut answer = [0u32; 3];
    let refusal = id_at_into(bytes, span, &mut answer);
    if refusal != 0 {
        return println!(rt; "refused {refusal}");
    }
    let id = answer[1];
    println!(rt; "{id}")
}

// Reads the stored result: 330,076 bytes are the most that 65,000 spans take.
pub(crate) fn print_id(
    rt: &(impl Print + Eprint + Alloc),
    from: &mut impl Read,
    span: u32,
) -> Result<()> {
    let mut bytes = [0u8; 330076];
    let n = match read_full(from, &mut bytes) {
        Ok(n) => n,
        Err(e) => return fail(rt, "standard input", &e),
    };
    match has_more(from) {
        Ok(true) => eprintln!(rt; "the stored result is longer than that of any 65,000 spans"),
        Ok(false) => print_found(rt, &bytes[..n], span),
        Err(e) => fail(rt, "standard input", &e),
    }
}
