// The words of a command line.
ghost use Rattle.std.specs.Prelude.{◌≡◌, ◌≢◌, ◌≤◌, ◌+◌, ℕ, [], ◌∷◌, IfNone, IfSome, map, string_bytes};
ghost use Rattle.std.specs.Fmt.{decimal};
ghost use Rattle.cc_top.specs.Words.{IsCommand, IsCommandOf, IsCount, IsNoCommand, IsNoCommandOf, three_words, word_of};
ghost use Rattle.cc_top.specs.declared.words.Task.{Task};

/// What is asked of a project.
#[derive(Clone, Copy)]
pub enum Task {
    /// The table of its couplings.
    List,
    /// Whether it is as it has to be.
    Check,
    /// The table with the first test that exercises each coupling, and whether the criteria are met.
    Score,
    /// The couplings that each test exercises.
    Tests,
    /// How many couplings lead from which component to which, and how many of them are exercised.
    Pairs,
    /// The tests that can be left out without losing a coupling.
    Reduce,
    /// The tests in the order in which each adds most.
    Order,
}

/// What the words ask for.
#[derive(Clone, Copy)]
pub enum Command<'a> {
    /// A task over the project whose file has this name.
    Project { task: Task, name: &'a str },
    /// The summary of the generated project of this many components.
    Generated(u32),
    /// The device couplings of the project whose file has this name, by the file of devices of the other name.
    Devices { name: &'a str, devices: &'a str },
}

// The task that this word asks for.
fn task_of(word: &str) -> Option<Task>
    ensures some { IfSome result (λ task. word.now ≡ word_of task) }
    ensures none { IfNone result ((task : Task) → word.now ≢ word_of task) }
{
    match word {
        "list" => Some(Task::List),
        "check" => Some(Task::Check),
        "score" => Some(Task::Score),
        "tests" => Some(Task::Tests),
        "pairs" => Some(Task::Pairs),
        "reduce" => Some(Task::Reduce),
        "order" => Some(Task::Order),
        _ => None,
    }
}

// The digit that this byte is.
fn digit(byte: u8) -> Option<u32>
    ensures some { IfSome result (λ n. (n ≤ 9) × (byte ≡ 48 + n)) }
    ensures none { IfNone result ((n : ℕ) → n ≤ 9 → byte ≢ 48 + n) }
{
    if byte < b'0' || byte > b'9' {
        return None;
    }
    Some((byte - b'0') as u32)
}

// The number of one digit that is this byte.
fn of_one(ones: u8) -> Option<u32>
    ensures some { IfSome result (λ n. IsCount n × (ones ∷ [] ≡ decimal n)) }
    ensures none { IfNone result ((n : ℕ) → IsCount n → ones ∷ [] ≢ decimal n) }
{
    match digit(ones) {
        Some(n) if n >= 1 => Some(n),
        _ => None,
    }
}

// The number of two digits that is these bytes.
fn of_two(tens: u8, ones: u8) -> Option<u32>
    ensures some { IfSome result (λ n. IsCount n × (tens ∷ ones ∷ [] ≡ decimal n)) }
    ensures none { IfNone result ((n : ℕ) → IsCount n → tens ∷ ones ∷ [] ≢ decimal n) }
{
    match (digit(tens), digit(ones)) {
        (Some(tens), Some(ones)) if tens >= 1 && tens * 10 + ones <= 60 => Some(tens * 10 + ones),
        _ => None,
    }
}

// The number of components that this word is: 1 to 60, without a zero in front.
fn count_of(word: &str) -> Option<u32>
    ensures some { IfSome result (λ n. IsCount n × (word.now ≡ decimal n)) }
    ensures none { IfNone result ((n : ℕ) → IsCount n → word.now ≢ decimal n) }
{
    match word.as_bytes() {
        [ones] => of_one(*ones),
        [tens, ones] => of_two(*tens, *ones),
        _ => None,
    }
}

// The command that these two words are.
fn command_for<'a>(word: &str, argument: &'a str) -> Option<Command<'a>>
    ensures some { IfSome result (IsCommandOf word.now argument.now) }
    ensures none { IfNone result (IsNoCommandOf word.now argument.now) }
{
    if word == "gen" {
        return match count_of(argument) {
            Some(count) => Some(Command::Generated(count)),
            None => None,
        };
    }
    match task_of(word) {
        Some(task) => Some(Command::Project {
            task,
            name: argument,
        }),
        None => None,
    }
}

// The command that these three words are.
fn command_with<'a>(word: &str, name: &'a str, devices: &'a str) -> Option<Command<'a>>
    ensures some { IfSome result (IsCommand (three_words word.now name.now devices.now)) }
    ensures none { IfNone result (IsNoCommand (three_words word.now name.now devices.now)) }
{
    if word == "devices" {
        return Some(Command::Devices { name, devices });
    }
    None
}

/// The command that the words are.
pub fn command_of(words: &[String]) -> Option<Command<'_>>
    ensures some { IfSome result (IsCommand (map string_bytes words.now)) }
    ensures none { IfNone result (IsNoCommand (map string_bytes words.now)) }
{
    match words {
        [word, argument] => command_for(word.as_str(), argument.as_str()),
        [word, name, devices] => command_with(word.as_str(), name.as_str(), devices.as_str()),
        _ => None,
    }
}
