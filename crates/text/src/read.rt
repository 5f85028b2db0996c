// The reader: from the bytes of a text to its numbers, and from numbers to the bytes that stand for them. What is read is defined in
// specs/Numbers.antt.
ghost use Rattle.std.specs.Prelude.{◌≡◌, map, length, set};
ghost use Rattle.text.specs.Numbers.{numbers_of, found_of, numbers_over, byte_or, over};
ghost use Rattle.text.specs.Scan.{Scans};

// Writes a number to a place, if the buffer has it.
fn store(buffer: &mut [u32], at: usize, x: u32)
    ensures { buffer.new ≡ set buffer.old at x }
{
    if at < buffer.len() {
        buffer[at] = x;
    }
}

// Writes the numbers of a text to the buffer, one after the other. What it leaves there of a bad text is not said. `count` and `digits` are counted
// by hand, since they go on with what is read and not with the loop. vectors/src/text.rt reads decimals by another rule: 64 bits, one space between.
fn scan(text: &[u8], buffer: &mut [u32]) -> Option<usize>
    ensures { Scans (numbers_of text.now) result buffer.old buffer.new }
{
    if 65536 < text.len() {
        return None;
    }
    let mut count: usize = 0;
    let mut digits: usize = 0;
    let mut value: u32 = 0;
    for &b in text {
        match b {
            48..=57 => {
                if digits == 5 {
                    return None;
                }
                digits += 1;
                value = value * 10 + (b - 48) as u32;
            }
            32 | 10 => {
                if digits != 0 {
                    store(buffer, count, value);
                    count += 1;
                    digits = 0;
                    value = 0;
                }
            }
            _ => return None,
        }
    }
    if digits != 0 {
        store(buffer, count, value);
        count += 1;
    }
    Some(count)
}

// Writes the numbers of any text to the first places of the buffer, as many as it has room for, and answers how many there are; none if
// the text is bad, which leaves only zeros. 32,768 places are enough. The count stands beside the lent buffer: no heap.
pub fn numbers(text: &[u8], buffer: &mut [u32]) -> Option<usize>
    ensures value { result ≡ found_of (numbers_of text.now) }
    ensures buffer_after { buffer.new ≡ numbers_over (numbers_of text.now) buffer.old }
{
    let found = scan(text, buffer);
    if found.is_none() {
        buffer.fill(0);
    }
    found
}

// Writes each number as a byte, and `wide` for one that no byte holds, to the first places of the buffer, as many as it has room for.
pub fn bytes(numbers: &[u32], wide: u8, buffer: &mut [u8])
    ensures { buffer.new ≡ over (map (byte_or wide) numbers.now) buffer.old }
{
    let count = numbers.len().min(buffer.len());
    // By index: after a loop over `iter_mut` nothing is known of the elements.
    for i in 0..count {
        buffer[i] = u8::try_from(numbers[i]).unwrap_or(wide);
    }
}
