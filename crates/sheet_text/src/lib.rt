// The sheet: from a text to what is printed. What a text says is the crate `reader`'s; what is printed of it is defined in specs/Print.antt.
#![tactic(auto)]

pub mod answer;
mod print;

ghost use Rattle.std.specs.Prelude.{◌≡◌, true, ◌≤◌, length};
ghost use Rattle.text.specs.Page.{Puts};
ghost use Rattle.schedule.specs.Passes.{all_tasks, passes_answer, passes_count};
ghost use Rattle.sheet_text.specs.Print.{sheet_of, page_of};
ghost use Rattle.sheet_text.specs.Steps.{table_from};

use answer::Sheet;
use machine::Tables;
use machine::valid::ValidState;
use text::print::Page;

// How many passes a schedule has; where they stand is not asked.
fn pass_count(n: usize, schedule: &[u8]) -> usize
    ensures { result ≡ passes_count (passes_answer n schedule.now 65536) }
{
    let mut pairs = [0u32; 65536];
    schedule::passes(n, schedule, &mut pairs).unwrap_or(0)
}

// Prints the run of a schedule that names tasks alone.
fn print_run(page: &mut Page, begin: ValidState, schedule: &[u8])
    requires { (length schedule.now ≤ 32768) × (all_tasks begin.state.n schedule.now ≡ true) }
    ensures { Puts (table_from begin.state schedule.now) page.old page.new }
{
    let state = begin.state;
    let n = state.n as usize;
    let passes = pass_count(n, schedule);
    let mut log = [0u8; 65536];
    let ran = runner::run(state, schedule, schedule.len(), &mut log);
    print::table(page, ran, n, passes);
}

// Prints the sheet of a text. The buffers have room for whatever a text says; no heap, so that what is said has their lengths beside them.
fn print_text(page: &mut Page, text: &[u8])
    ensures { Puts (sheet_of text.now) page.old page.new }
{
    let mut parents = [0u8; 64];
    let mut turns = [0u8; 32768];
    match reader::read(text, &mut parents, &mut turns) {
        Ok(said) => {
            let tables = Tables::of_parents(&parents[..said.parents]);
            let fresh = said.setup.fresh(tables);
            let begin = ValidState { state: fresh.state };
            print_run(page, begin, &turns[..said.turns]);
        }
        Err(refused) => print::refusal(page, refused),
    }
}

// The sheet of any text.
pub fn sheet(text: &[u8]) -> Sheet
    ensures { (result.len ≡ length (sheet_of text.now)) × (result.bytes ≡ page_of text.now) }
{
    let mut bytes = [0u8; 2048];
    let mut page = Page::new(&mut bytes);
    print_text(&mut page, text);
    let len = page.place();
    Sheet { bytes, len }
}
