// The kept state: a list of numbers, as `snapshot` has it. They are shown one by one, and changed by field and task.
use crate::print::Output;
use machine::State;
use snapshot::SIZE;

// All zeros at first.
#[derive(Clone, Copy)]
pub struct Kept {
    numbers: [u64; SIZE],
}

// A field: where the list has it for task 0, how far on for each further task, for how many tasks it is there, and the most that it holds.
#[derive(Clone, Copy)]
struct Field {
    first: usize,
    step: usize,
    tasks: usize,
    most: u64,
}

impl Field {
    // The numbers are no enum: request 6 has them, and the stored requests may not change.
    // The state's own five, 9 to 13, come first, then the 64 parents, 14, and then each task's fifteen, where 15 comes right after 8.
    // `count` and the tallies, 1, 16 and 17, have 32 bits, `list`, 4, 64, and any other 8.
    fn of(number: u64) -> Option<Field> {
        let (first, step, tasks) = match number {
            0..=8 => (69 + number as usize, 15, 64),
            9..=13 => (number as usize - 9, 0, 1),
            14 => (5, 1, 64),
            15..=20 => (63 + number as usize, 15, 64),
            _ => return None,
        };
        let most = match number {
            1 | 16 | 17 => u64::from(u32::MAX),
            4 => u64::MAX,
            _ => u64::from(u8::MAX),
        };
        Some(Field {
            first,
            step,
            tasks,
            most,
        })
    }
}

impl Kept {
    pub(crate) fn new() -> Kept {
        Kept { numbers: [0; SIZE] }
    }

    // The state that is kept. Each of its numbers fits.
    pub(crate) fn state(&self) -> State {
        snapshot::load::load(&self.numbers).unwrap_or_else(|_| State::zero())
    }

    pub(crate) fn keep(&mut self, state: State) {
        let _ = snapshot::save::save(state, &mut self.numbers);
    }

    // All numbers, with a space between them.
    pub(crate) fn show(&self, out: &mut Output) {
        if let Some((first, rest)) = self.numbers.split_first() {
            out.say(*first);
            out.list(rest);
        }
    }

    // Changes a field to a value. None where there is no such field, or it cannot hold the value, and then nothing changes.
    pub(crate) fn change(&mut self, field: u64, task: usize, value: u64) -> Option<()> {
        let field = Field::of(field)?;
        if field.tasks <= task || field.most < value {
            return None;
        }
        let place = field.step.checked_mul(task)?.checked_add(field.first)?;
        *self.numbers.get_mut(place)? = value;
        Some(())
    }
}
