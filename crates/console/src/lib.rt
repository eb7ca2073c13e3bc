// What the programs share: the first bytes of standard input or of a file, the arguments as bytes, and the line that tells a call that failed.
// Of the bytes that the system gives no clause speaks; of those of a reader over memory the clauses of `read_full` and `read_first` do.

#![tactic(auto)]

ghost use Rattle.std.specs.Prelude.{◌≡◌, ◌<◌, ◌≤◌, ◌↔◌, IfOk, IfSome, IsTrue, IsUtf8, MatchResult, length, take};
ghost use Rattle.std.specs.Io.{ReadsAtMost, StartsWith, WritesAtMost};
ghost use Rattle.std.specs.Io.KnownBytes.{Consumes, IsAtEnd};

use std::env::FillError;
use std::io::{Error, Read, Result};
use std::rt::Env;
use std::str;

// 4,096 zeros.
pub fn buffer() -> [u8; 4096]
    ensures { 4096 ≡ length result }
{
    [0; 4096]
}

// Reads until buf is full or the input ends, and returns how many bytes it put at the start of buf.
pub fn read_full<R: Read>(from: &mut R, buf: &mut [u8]) -> Result<usize>
    ensures in_bounds { ReadsAtMost result buf.new }
    ensures bytes { IfOk result (λ n. Consumes (R.remaining from.old) (R.remaining from.new) (take n buf.new)) }
    ensures end { IfOk result (λ n. n < length buf.new → IsAtEnd (R.remaining from.new)) }
{
    let mut done = 0;
    while done < buf.len() {
        let n = from.read(&mut buf[done..])?;
        if n == 0 {
            break;
        }
        done += n;
    }
    Ok(done)
}

// Whether there is a byte more, which it takes.
pub fn has_more<R: Read>(from: &mut R) -> Result<bool>
    ensures { IfOk result (λ more. IfSome (R.remaining from.old) (λ xs. IsTrue more ↔ (0 < length xs))) }
{
    let mut one = [0u8; 1];
    Ok(read_full(from, &mut one)? == 1)
}

// Fills buf as far as the input goes, and reads a byte more: so a read that fails behind the buffer's end is an error too.
pub fn read_first<R: Read>(from: &mut R, buf: &mut [u8]) -> Result<usize>
    ensures in_bounds { ReadsAtMost result buf.new }
    ensures first { IfOk result (λ n. IfSome (R.remaining from.old) (λ xs. take n buf.new ≡ take (length buf.new) xs)) }
{
    let n = read_full(from, buf)?;
    has_more(from)?;
    Ok(n)
}

// How many arguments the program was started with, its own name among them; where there are more than `most`, `most`.
pub fn arg_count(rt: &impl Env, most: usize) -> usize
    ensures { result ≤ most }
{
    let mut none = [0u8; 0];
    for k in 0..most {
        if let Err(FillError::NotPresent) = rt.arg(k, &mut none) {
            return k;
        }
    }
    most
}

const INVALID: i32 = 22;

const TOO_LONG: i32 = 36;

const NOT_TEXT: i32 = 84;

// Puts argument k at the start of buf, and returns its length.
pub fn arg(rt: &impl Env, k: usize, buf: &mut [u8]) -> Result<usize>
    ensures { WritesAtMost result buf.new }
{
    rt.arg(k, buf).map_err(|e| match e {
        FillError::NotPresent => Error::from_raw_os_error(INVALID),
        FillError::TooLong => Error::from_raw_os_error(TOO_LONG),
    })
}

// The bytes as text, as the name of a file has to be.
pub fn text(bytes: &[u8]) -> Result<&str>
    ensures { MatchResult result (λ s. s.now ≡ bytes.now) (λ _. IsUtf8 bytes.now → ⊥) }
{
    str::from_utf8(bytes).map_err(|_| Error::from_raw_os_error(NOT_TEXT))
}

// Argument k as text, in buf.
pub fn arg_text<'a>(rt: &impl Env, k: usize, buf: &'a mut [u8]) -> Result<&'a str>
    ensures { IfOk result (λ t. length t.now ≤ length buf.old) }
{
    let n = arg(rt, k, buf)?;
    text(&buf[..n])
}

// The number that the bytes are, where they are digits alone and it is at most `most`.
pub fn number(bytes: &[u8], most: u32) -> Option<u32>
    ensures { IfSome result (λ n. n ≤ most) }
{
    // `parse` takes a sign too.
    if !bytes.iter().all(|b| b.is_ascii_digit()) {
        return None;
    }
    let n = text(bytes).ok()?.parse::<u32>().ok()?;
    if n <= most { Some(n) } else { None }
}

// The system's text in that of an error, as `No such file or directory` in `No such file or directory (os error 2)`.
fn reason(told: &str) -> &str
    ensures { StartsWith told.now result.now }
{
    told.split_once(" (os error ")
        .map_or(told, |(text, _)| text)
}

// Writes a line to standard error: what failed, a colon and the system's text for the error.
pub fn fail(rt: &(impl Eprint + Alloc), what: &str, error: &Error) -> Result<()> {
    let told = format!(in rt.alloc(); "{error}")?;
    let text = reason(told.as_str());
    eprintln!(rt; "{what}: {text}")
}

#[cfg(test)]
mod tests {
    use super::*;

    #[test]
    fn reads_first_bytes(rt: HostRuntime) -> Result<()> {
        let mut buf = [0u8; 4];
        let mut from: &[u8] = b"abcdefg";
        assert_eq!(rt; read_first(&mut from, &mut buf)?, 4);
        assert!(rt; buf == *b"abcd");
        assert_eq!(rt; read_full(&mut from, &mut buf)?, 2);
        assert!(rt; buf == *b"fgcd");
        assert!(rt; !has_more(&mut from)?);
        Ok(())
    }

    #[test]
    fn reads_numbers(rt: HostRuntime) -> Result<()> {
        assert!(rt; number(b"0", 9) == Some(0));
        assert!(rt; number(b"00000000000000000999", 999) == Some(999));
        assert!(rt; number(b"1000", 999) == None);
        assert!(rt; number(b"99999999999999999999", 999) == None);
        assert!(rt; number(b"", 999) == None);
        assert!(rt; number(b"+1", 999) == None);
        assert!(rt; number(b"1 ", 999) == None);
        Ok(())
    }

    #[test]
    fn tells_errors(rt: HostRuntime) -> Result<()> {
        assert!(rt; reason("File name too long (os error 36)") == "File name too long");
        let mut path = buffer();
        assert!(rt; 0 < arg_count(&rt, 4));
        assert_eq!(rt; arg_count(&rt, 0), 0);
        assert!(rt; arg_text(&rt, 1000, &mut path).is_err());
        match arg(&rt, 1000, &mut path) {
            Ok(_) => assert!(rt; false),
            Err(e) => fail(&rt, "argument 1000", &e)?,
        }
        assert!(rt; text(b"name")? == "name");
        assert!(rt; text(b"\xff").is_err());
        Ok(())
    }
}
