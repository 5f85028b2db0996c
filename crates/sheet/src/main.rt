// The sheet program: reads a text from standard input, and writes what sheet_text makes of it. It reads one byte past the limit of
// 65,536, so that a longer text is refused and not cut.
#![tactic(auto)]

// Says on standard error what went wrong. Where that cannot be written there is nobody to tell. No twin of `play`'s, which takes bytes.
fn say(rt: &impl Eprint, message: &str) {
    let _ = rt.eprint(message);
}

fn main(rt: HostRuntime) {
    let mut text = [0u8; 65537];
    let Ok(n) = input::read_all(&mut rt.stdin(), &mut text) else {
        say(&rt, "sheet: standard input cannot be read\n");
        return;
    };
    let page = sheet_text::sheet(&text[..n]);
    if rt.write_all(&page.bytes[..page.len]).is_err() {
        say(&rt, "sheet: standard output cannot be written\n");
    }
}
