// What the desk program prints, put into a lent buffer: each function puts its bytes at a place and answers the place behind them.
#![tactic(auto)]

ghost use Rattle.std.specs.Prelude.{◌+◌, ◌*◌, ◌≤◌, length};
ghost use Rattle.desk_rule.specs.Printed.{pair_line};
ghost use Rattle.desk_rule.specs.Output.{refused_line, entry_lines};
ghost use Rattle.text_put.specs.Appending.{Appends};

// Two numbers parted by a space, and LF.
pub fn put_pair(out: &mut [u8], at: usize, first: u32, second: u32) -> usize
    requires { at + 22 ≤ length out.old }
    ensures { Appends at (pair_line first second) out.old out.new result × (result ≤ at + 22) }
{
    let spaced = text_put::put_number(out, at, first);
    let next = text_put::put_byte(out, spaced, b' ');
    let ended = text_put::put_number(out, next, second);
    text_put::put_byte(out, ended, b'\n')
}

// The line of a refusal.
pub fn put_refused(out: &mut [u8], number: u32, detail: u32) -> usize
    requires { 30 ≤ length out.old }
    ensures { Appends 0 (refused_line number detail) out.old out.new result }
{
    let at = text_put::put(out, 0, b"refused ");
    put_pair(out, at, number, detail)
}

// The lines of the first n entries of the record.
pub fn put_entries(out: &mut [u8], at: usize, executed: &[u32], n: usize) -> usize
    requires { (at + n * 22 ≤ length out.old) × (2 * n ≤ length executed.now) }
    ensures { Appends at (entry_lines executed.now n 0) out.old out.new result }
{
    let mut end = at;
    for x in 0..n {
        let entry = entries::entry_at(executed, x);
        end = put_pair(out, end, entry.task.0, entry.worker.0);
    }
    end
}
