// The task set: the board's figures, the tasks and the interrupts, each in file order, with the limits of documents 01 and 02 as its constants.
// A set may also be built by a caller, so its types hold more than a file's fields do.
ghost use Rattle.std.specs.Prelude.{◌≡◌};
ghost use Rattle.tasks.specs.Set.{zero_set, no_interrupts, masked_ticks, rule_number, with_lines, cache_cost};

// The board's figures: those of the 01 line, and those of the 05 line and of the 06 line where there are such.
#[derive(Clone, Copy)]
pub struct Header {
    pub processors: u8,
    pub slot: u32,
    pub relj: u16,
    pub relo: u16,
    pub ctswo: u16,
    pub resd: u16,
    pub cpmdo: u16,
    pub masked: Option<u16>,
    pub rule: Option<u16>,
}

// The figures of an 02 line; or those of an 03 line, which also gives the task's cache cost. The id stands last, so that no gap parts them:
// a set is then copied whole, and not task by task.
#[derive(Clone, Copy)]
pub struct Task {
    pub cost: u32,
    pub deadline: u32,
    pub period: u32,
    pub cache: Option<u16>,
    pub id: u8,
}

// The figures of an 07 line: an interrupt's processor, cost, deadline, period and jitter.
#[derive(Clone, Copy)]
pub struct Interrupt {
    pub cost: u32,
    pub deadline: u32,
    pub period: u32,
    pub jitter: u16,
    pub processor: u8,
}

#[derive(Clone, Copy)]
pub struct Interrupts {
    pub count: usize,
    pub each: [Interrupt; TaskSet::MOST_INTERRUPTS],
}

#[derive(Clone, Copy)]
pub struct TaskSet {
    pub header: Header,
    pub count: usize,
    pub tasks: [Task; TaskSet::MOST_TASKS],
    pub interrupts: Interrupts,
}

impl TaskSet {
    pub const MOST_TASKS: usize = 64;

    pub const MOST_INTERRUPTS: usize = 32;

    pub const MOST_PROCESSORS: u8 = 64;

    pub const LONGEST_PERIOD: u32 = 1_000_000;

    pub const LONGEST_HORIZON: u64 = 10_000_000;

    pub const LAST_RULE: u16 = 8;

    // The all-zero set, which a refused read answers.
    pub fn zero() -> TaskSet
        ensures { result ≡ zero_set }
    {
        TaskSet {
            header: Header {
                processors: 0,
                slot: 0,
                relj: 0,
                relo: 0,
                ctswo: 0,
                resd: 0,
                cpmdo: 0,
                masked: None,
                rule: None,
            },
            count: 0,
            tasks: [Task {
                id: 0,
                cost: 0,
                deadline: 0,
                period: 0,
                cache: None,
            }; TaskSet::MOST_TASKS],
            interrupts: Interrupts::none(),
        }
    }
}

impl Interrupts {
    pub fn none() -> Interrupts
        ensures { result ≡ no_interrupts }
    {
        Interrupts {
            count: 0,
            each: [Interrupt {
                processor: 0,
                cost: 0,
                deadline: 0,
                period: 0,
                jitter: 0,
            }; TaskSet::MOST_INTERRUPTS],
        }
    }
}

impl Header {
    // B: the ticks for which a job can hold interrupts off.
    pub fn masked_ticks(self) -> u16
        ensures { result ≡ masked_ticks self }
    {
        self.masked.unwrap_or(0)
    }

    // The number of the packing rule.
    pub fn rule_number(self) -> u16
        ensures { result ≡ rule_number self }
    {
        self.rule.unwrap_or(0)
    }

    // The figures of the 01 line, with what the lines behind it give.
    pub fn with_lines(self, masked: Option<u16>, rule: Option<u16>) -> Header
        ensures { result ≡ with_lines self masked rule }
    {
        Header {
            masked,
            rule,
            ..self
        }
    }
}

impl Task {
    // What the task pays for a cold cache: what its 03 line gives, or the board's.
    pub fn cache_cost(self, header: Header) -> u16
        ensures { result ≡ cache_cost header self }
    {
        self.cache.unwrap_or(header.cpmdo)
    }
}
