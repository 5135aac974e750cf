// The desk program: reads a task text from standard input and prints its run with two workers and four slots. Where its input can't be
// read to the end, nothing is judged; a failed read or write is told on standard error.
#![tactic(auto)]

use cases::read;
use std::io::Write;

fn tell<W: Write>(err: &mut W, line: &[u8]) {
    let _ = err.write_all(line);
}

fn main(rt: HostRuntime) {
    // one byte more than a text may have, so that a longer one is refused and not cut
    let mut text = [0u8; 65537];
    let Ok(count) = read::full(&mut rt.stdin(), &mut text) else {
        return tell(&mut rt.stderr(), b"desk: standard input can't be read\n");
    };
    let mut out = [0u8; 32768];
    let end = response::respond(&text[..count], &mut out);
    if rt.stdout().write_all(&out[..end]).is_err() {
        tell(
            &mut rt.stderr(),
            b"desk: standard output can't be written\n",
        );
    }
}
