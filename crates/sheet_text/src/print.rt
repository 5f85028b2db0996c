// The printers of the table and of a refusal: each prints on the page, after what is printed there. They use no `write!`: what it writes is promised
// only where all of it is written, and `Puts` says also what a short page gets.
ghost use Rattle.std.specs.Prelude.{◌≡◌, ◌-◌, ◌≤◌};
ghost use Rattle.text.specs.Page.{Puts};
ghost use Rattle.machine.specs.Least.{least_up_to};
ghost use Rattle.sheet_text.specs.Print.{row_with, rows_by, table_with, refusal_of};
ghost use Rattle.sheet_text.specs.Steps.{ran_row};

use machine::State;
use reason::{PlacedRefusal, Reason};
use runner::Ran;
use text::print::Page;

// The line of a task.
fn row(page: &mut Page, task: usize, line: u8, count: u32, moves: u32, waits: u32)
    ensures { Puts (row_with task line count moves waits) page.old page.new }
{
    page.number(task);
    page.spaced(line as usize);
    page.spaced(count as usize);
    page.spaced(moves as usize);
    page.spaced(waits as usize);
    page.byte(b'\n');
}

// The lines of the tasks below n. By index, since three arrays are read of each task; and each function here asks for the bound of n, since neither
// a `Ran` nor its state has one in its type.
fn rows(page: &mut Page, ran: Ran, n: usize)
    requires { n ≤ 64 }
    ensures { Puts (rows_by (ran_row ran) n) page.old page.new }
{
    let state = ran.state;
    for q in 0..n {
        let task = state.tasks[q];
        row(page, q, task.line, task.count, ran.moves[q], ran.waits[q]);
    }
}

// The least count of the tasks below n.
fn least(state: State, n: usize) -> u32
    requires { (1 ≤ n) × (n ≤ 64) }
    ensures { result ≡ least_up_to state (n - 1) }
{
    let all = state.counts();
    let least = counts::least_of(&all[..n]);
    least.count
}

// The whole table: the lines of the tasks below n, the passes and the least count.
pub(crate) fn table(page: &mut Page, ran: Ran, n: usize, passes: usize)
    requires { (1 ≤ n) × (n ≤ 64) }
    ensures { Puts (table_with (rows_by (ran_row ran) n) passes (least_up_to ran.state (n - 1))) page.old page.new }
{
    let state = ran.state;
    page.word(b"task line count moves waits\n");
    rows(page, ran, n);
    page.word(b"passes");
    page.spaced(passes);
    page.word(b" least");
    page.spaced(least(state, n) as usize);
    page.byte(b'\n');
}

// The line of a refusal; the place is printed for reason 9 alone.
pub(crate) fn refusal(page: &mut Page, refused: PlacedRefusal)
    ensures { Puts (refusal_of refused.refusal refused.place) page.old page.new }
{
    page.word(b"refused");
    page.spaced(refused.refusal.number() as usize);
    if refused.refusal.is_for(Reason::Task) {
        page.word(b" place");
        page.spaced(refused.place);
    }
    page.byte(b'\n');
}
