//! Words that read as a command, and words that do not.
use ci_arguments::{CommandName, OptionName, Words, WordsErr, read_words};
use std::alloc::{AllocError, Global};
use std::process::Abort;

/// The words of a line, by blanks: `''` is the empty word.
fn words(alloc: Global, line: &str) -> Result<Vec<String>, AllocError> {
    let mut words = Vec::new(alloc);
    for word in line.split(' ') {
        if word == "''" {
            words.push(String::new(alloc))?;
        } else if !word.is_empty() {
            words.push(String::from_str(alloc, word)?)?;
        }
    }
    Ok(words)
}

/// Appends what an option with a word of 32 bits is set to.
fn push_word(alloc: Global, text: &mut String, name: &str, word: u32) -> Result<(), AllocError> {
    let shown = format!(in alloc; " {name} {word:x}")?;
    text.push_str(shown.as_str())
}

/// Appends the leaders, in their order.
fn push_leaders(alloc: Global, text: &mut String, said: &Words) -> Result<(), AllocError> {
    for leader in said.words(alloc, OptionName::Leader)?.as_slice() {
        push_word(alloc, text, "leader", *leader)?;
    }
    Ok(())
}

/// The budget where none is given.
const DEFAULT_BUDGET: u64 = 65_536;

/// What `best` or `pair` is asked, in short.
fn search_shown(alloc: Global, said: &Words, name: &str) -> Result<String, AllocError> {
    let (file, table) = (said.name_at(0), said.name(OptionName::Table).unwrap_or("-"));
    let (inputs, outputs) = (
        said.number(OptionName::Inputs),
        said.number(OptionName::Outputs),
    );
    let mut text = format!(in alloc; "{name} {file} {inputs} {outputs} {table}")?;
    if let Some(address) = said.word(OptionName::At) {
        push_word(alloc, &mut text, "at", address)?;
    }
    push_leaders(alloc, &mut text, said)?;
    let budget = said.number(OptionName::Budget);
    if budget != DEFAULT_BUDGET {
        let shown = format!(in alloc; " budget {budget}")?;
        text.push_str(shown.as_str())?;
    }
    Ok(text)
}

/// What `run` is asked, in short.
fn run_shown(alloc: Global, said: &Words) -> Result<String, AllocError> {
    let (file, steps) = (said.name_at(0), said.number(OptionName::Steps));
    let input = said.name(OptionName::Input).unwrap_or("-");
    let table = said.name(OptionName::Table).unwrap_or("-");
    let mut text = format!(in alloc; "run {file} {steps} {input} {table}")?;
    if let Some(units) = said.name(OptionName::Units) {
        text.push_str(" units ")?;
        text.push_str(units)?;
    }
    Ok(text)
}

/// What `eval` or `geval` is asked, in short.
fn eval_shown(alloc: Global, said: &Words, name: &str) -> Result<String, AllocError> {
    let (file, number) = (said.name_at(0), said.number_at(1));
    let mut text = format!(in alloc; "{name} {file} {number}")?;
    for place in 2..5 {
        let word = said.word_at(place);
        write!(text, " {word}")?;
    }
    for (name, option) in [("d", OptionName::ArgumentD), ("e", OptionName::ArgumentE)] {
        if let Some(word) = said.word(option) {
            push_word(alloc, &mut text, name, word)?;
        }
    }
    Ok(text)
}

/// What `find`, `check`, `area` or `rename` is asked, in short: its files, and then the numbers, 0 where the command has
/// no such option, the last of which is the version of the log book, and the other files.
fn choice_shown(
    alloc: Global,
    said: &Words,
    name: &str,
    files: usize,
) -> Result<String, AllocError> {
    let mut text = String::from_str(alloc, name)?;
    for place in 0..files {
        let file = said.name_at(place);
        write!(text, " {file}")?;
    }
    for option in [
        OptionName::Inputs,
        OptionName::Outputs,
        OptionName::Count,
        OptionName::Budget,
        OptionName::Steps,
        OptionName::LogVersion,
    ] {
        let number = said.number(option);
        write!(text, " {number}")?;
    }
    for option in [OptionName::Table, OptionName::Input] {
        let file = said.name(option).unwrap_or("-");
        write!(text, " {file}")?;
    }
    push_leaders(alloc, &mut text, said)?;
    Ok(text)
}

/// What the program is asked, in short: the command, the names in it and what its options are set to.
fn said_shown(alloc: Global, said: &Words) -> Result<String, AllocError> {
    match said.command() {
        CommandName::Best => search_shown(alloc, said, "best"),
        CommandName::Pair => search_shown(alloc, said, "pair"),
        CommandName::Asm => {
            let (text, out) = (said.name_at(0), said.name_at(1));
            format!(in alloc; "asm {text} {out}")
        }
        CommandName::Dis => {
            let file = said.name_at(0);
            format!(in alloc; "dis {file}")
        }
        CommandName::Run => run_shown(alloc, said),
        CommandName::Blocks => {
            let file = said.name_at(0);
            let mut text = format!(in alloc; "blocks {file}")?;
            push_leaders(alloc, &mut text, said)?;
            Ok(text)
        }
        CommandName::Eval => eval_shown(alloc, said, "eval"),
        CommandName::Find => choice_shown(alloc, said, "find", 5),
        CommandName::Check => choice_shown(alloc, said, "check", 4),
        CommandName::Area => {
            let mut text = choice_shown(alloc, said, "area", 1)?;
            let limit = said.number(OptionName::Limit);
            write!(text, " limit {limit}")?;
            Ok(text)
        }
        CommandName::Rename => choice_shown(alloc, said, "rename", 2),
        CommandName::Relog => {
            let (logs, out) = (said.name_at(0), said.name_at(1));
            let version = said.number(OptionName::LogVersion);
            format!(in alloc; "relog {logs} {out} {version}")
        }
        CommandName::Gates => {
            let (units, out) = (said.name_at(0), said.name_at(1));
            format!(in alloc; "gates {units} {out}")
        }
        CommandName::Geval => eval_shown(alloc, said, "geval"),
        CommandName::Load => {
            let seed = said.number_at(0);
            format!(in alloc; "load {seed}")
        }
    }
}

/// What the words of a line read as, in short.
fn shown(alloc: Global, line: &str) -> Result<String, AllocError> {
    let words = words(alloc, line)?;
    match read_words(alloc, &words) {
        Ok(said) => {
            let text = said_shown(alloc, &said);
            drop(said);
            text
        }
        Err(WordsErr::NoReading) => String::from_str(alloc, "none"),
        Err(WordsErr::NoMemory) => Err(AllocError),
    }
}

// Tables are the answers of functions, so that the proof of a test looks at none of them.

/// A line, and what it reads as, in short.
type Told = (&'static str, &'static str);

/// Asserts that what a line reads as is what is wanted.
fn is_reading(rt: &impl Abort, line: &str, text: &str, wanted: &str) {
    assert!(rt; text == wanted, "the reading of {line}");
}

/// Asserts what each line reads as, in short.
fn expect(rt: &(impl Abort + AllocGlobal), lines: &[Told]) -> Result<(), AllocError> {
    for (line, wanted) in lines {
        let text = shown(rt.alloc(), line)?;
        is_reading(rt, line, text.as_str(), wanted);
        drop(text);
    }
    Ok(())
}

/// Options that stand anywhere.
fn anywhere() -> &'static [Told] {
    &[
        ("best F", "best F 3 2 -"),
        ("best F --in=3", "best F 3 2 -"),
        ("best --in 5 F --out 3", "best F 5 3 -"),
        ("best --in 2 F", "best F 2 2 -"),
        ("best F --out 1 --in 3", "best F 3 1 -"),
        ("best --out=1 F --in 03", "best F 3 1 -"),
        ("best F --in 0000000002", "best F 2 2 -"),
        ("best -- F", "best F 3 2 -"),
        ("best --in 1 -- F", "best F 1 2 -"),
        ("best F --", "best F 3 2 -"),
        ("eval U 03 0x1 -- 0xFf 0x10", "eval U 3 1 255 16"),
    ]
}

/// Choices and their options.
fn choices() -> &'static [Told] {
    &[
        (
            "find A B C D E",
            "find A B C D E 3 2 32 65536 16777216 1 - -",
        ),
        (
            "find --count=8 A B C D E --steps 5 --leader 0x10 --table T --budget 7 --in 1 --input I --out 1",
            "find A B C D E 1 1 8 7 5 1 T I leader 10",
        ),
        ("find A A B C D", "none"),
        ("find A B C D C", "none"),
        ("find A B C D E --table C", "none"),
        ("find A B C D E --count 33", "none"),
        ("find A B C D", "none"),
        (
            "find A B C D E --table A",
            "find A B C D E 3 2 32 65536 16777216 1 A -",
        ),
        ("find A B C D E --table=E", "none"),
        (
            "check A A B B --count 1",
            "check A A B B 3 2 1 65536 16777216 0 - -",
        ),
        ("check A B C D E", "none"),
    ]
}

/// Versions of log books.
fn versions() -> &'static [Told] {
    &[
        ("relog A B", "relog A B 2"),
        ("relog A B --log 1", "relog A B 1"),
        ("relog --log=2 A -- B", "relog A B 2"),
        ("relog A ./A --log 01", "relog A ./A 1"),
        ("relog A A", "none"),
        ("relog A", "none"),
        ("relog A B C", "none"),
        ("relog A B --log 0", "none"),
        ("relog A B --log 3", "none"),
        ("relog A B --log", "none"),
        ("relog A B --log=", "none"),
        ("relog A B --log 0x1", "none"),
        ("relog A B --log 1 --log=1", "none"),
        ("relog A B --in 3", "none"),
        ("gates A B", "gates A B"),
        ("gates -- A ./A", "gates A ./A"),
        ("gates A A", "none"),
        ("gates A", "none"),
        ("gates A B C", "none"),
        ("gates A B --log 1", "none"),
        ("geval A 3 0x1 0xFf 0x10", "geval A 3 1 255 16"),
        (
            "geval --d=0x10 A 031 0x0 -- 0x0 0x2",
            "geval A 31 0 0 2 d 10",
        ),
        (
            "geval A 1 0x2 0x3 0x4 --e 0x5 --d 0x6",
            "geval A 1 2 3 4 d 6 e 5",
        ),
        ("geval A 32 0x0 0x0 0x0", "none"),
        ("geval A 1 0x0 0x0", "none"),
        ("geval A 1 0x0 0x0 0x0 0x0", "none"),
        ("geval A 1 0x0 0x0 0", "none"),
        ("geval A 1 0x0 0x0 0x0 --log 1", "none"),
        (
            "find A B C D E --log 2",
            "find A B C D E 3 2 32 65536 16777216 2 - -",
        ),
        (
            "find --log=1 A B C D E",
            "find A B C D E 3 2 32 65536 16777216 1 - -",
        ),
        ("find A B C D E --log 3", "none"),
        ("find A B C D E --log 2 --log 2", "none"),
        ("check A B C D --log 1", "none"),
        ("best F --log 1", "none"),
    ]
}

/// Options of `pair`.
fn pairs() -> &'static [Told] {
    &[
        ("pair F", "pair F 3 2 -"),
        ("pair --in 1 F --out=3 --table T", "pair F 1 3 T"),
        (
            "pair --leader 0xab --at 0x4 --budget 7 F --leader=0x8",
            "pair F 3 2 - at 4 leader ab leader 8 budget 7",
        ),
        ("pair F --in 6", "none"),
        ("pair F --out 4", "none"),
        ("pair F --budget 0", "none"),
        ("pair F --at 0x1 --at 0x1", "none"),
        ("pair F --steps 3", "none"),
        ("pair F --count 3", "none"),
        ("pair F G", "none"),
        ("pair", "none"),
    ]
}

/// Options of `area`.
fn areas() -> &'static [Told] {
    &[
        (
            "area A --limit 0",
            "area A 3 2 32 65536 16777216 0 - - limit 0",
        ),
        (
            "area --limit=4294967295 A --in 5 --out 1 --count 4 --budget 7 --steps 9 --table T --input I --leader 0x10",
            "area A 5 1 4 7 9 0 T I leader 10 limit 4294967295",
        ),
        // The limit must stand, once, and is below 2 to the power 32.
        ("area A", "none"),
        ("area A --limit 4294967296", "none"),
        ("area A --limit 1 --limit 1", "none"),
        ("area A --limit 0x10", "none"),
        ("area --limit 1", "none"),
        ("area A B --limit 1", "none"),
        ("area A --limit 1 --log 1", "none"),
        ("find A B C D E --limit 1", "none"),
    ]
}

/// Options of `rename`.
fn renames() -> &'static [Told] {
    &[
        ("rename A B", "rename A B 0 0 0 0 16777216 0 - -"),
        (
            "rename --steps 9 A --input I --leader 0x10 B",
            "rename A B 0 0 0 0 9 0 - I leader 10",
        ),
        ("rename A", "none"),
        ("rename A A", "none"),
        ("rename A B C", "none"),
        ("rename A B --input B", "none"),
        ("rename A B --table T", "none"),
        ("rename A B --in 3", "none"),
        ("rename A B --steps 4294967297", "none"),
    ]
}

/// Words with no reading.
fn unreadable() -> &'static [Told] {
    &[
        ("", "none"),
        ("foo", "none"),
        ("best", "none"),
        ("best ''", "none"),
        ("best -", "none"),
        ("best -x", "none"),
        ("best F G", "none"),
        ("best F -- G", "none"),
        ("best F -- --in", "none"),
        ("best -- -F", "none"),
        ("dis -- F --", "none"),
        ("best F --help", "none"),
        ("best F -h", "none"),
        ("best help", "best help 3 2 -"),
        ("load 007", "load 7"),
        ("load 4294967296", "none"),
    ]
}

/// Options with no reading.
fn unreadable_options() -> &'static [Told] {
    &[
        ("best F --in", "none"),
        ("best F --in=", "none"),
        ("best F --in ''", "none"),
        ("best F --in --", "none"),
        ("best F --in -- 3", "none"),
        ("best F --in --out", "none"),
        ("best F --in --out 1", "none"),
        ("best F --in -1", "none"),
        ("best F --in=-1", "none"),
        ("best F --in 0", "none"),
        ("best F --in 6", "none"),
        ("best F --out 4", "none"),
        ("best F --in +3", "none"),
        ("best F --in 00000000003", "none"),
        ("best F --in 4294967299", "none"),
        ("best F --in 2 --in 2", "none"),
        ("best F --in=2 --in=2", "none"),
        ("best F --in 3 --in=3", "none"),
        ("best F --inn 2", "none"),
        ("best F --=2", "none"),
    ]
}

/// Names of `asm` and `dis`.
fn names() -> &'static [Told] {
    &[
        ("asm A B", "asm A B"),
        ("asm A -- B", "asm A B"),
        ("asm A ./A", "asm A ./A"),
        ("asm A A", "none"),
        ("asm A", "none"),
        ("asm A B C", "none"),
        ("asm A B --in 3", "none"),
        ("dis F", "dis F"),
        ("dis F G", "none"),
        ("dis", "none"),
    ]
}

/// Options of `run`.
fn runs() -> &'static [Told] {
    &[
        ("run F", "run F 16777216 - -"),
        ("run F --steps 3", "run F 3 - -"),
        ("run F --input=I --table T", "run F 16777216 I T"),
        ("run --table T --steps=1 F", "run F 1 - T"),
        ("run F --steps 4294967296", "run F 4294967296 - -"),
        ("run F --steps 4294967297", "none"),
        ("run F --steps 0", "none"),
        ("run F --in 2", "none"),
        ("run", "none"),
        ("run A B", "none"),
    ]
}

/// The budget of `best`.
fn budgets() -> &'static [Told] {
    &[
        ("best F --budget 65536", "best F 3 2 -"),
        ("best F --budget=1", "best F 3 2 - budget 1"),
        ("best --budget 4194304 F", "best F 3 2 - budget 4194304"),
        ("best F --budget 4194305", "none"),
        ("best F --budget 4294967297", "none"),
        ("best F --budget 0", "none"),
        ("best F --budget 2 --budget 2", "none"),
        ("blocks F --budget 2", "none"),
        ("run F --budget 2", "none"),
    ]
}

/// Files of options.
fn files() -> &'static [Told] {
    &[
        ("best F --table T", "best F 3 2 T"),
        ("run F --table F", "run F 16777216 - F"),
        ("run F --input I=J", "run F 16777216 I=J -"),
        ("run F --input ''", "none"),
        ("run F --input=", "none"),
        ("run F --input -", "none"),
        ("run F --input -x", "none"),
        ("run F --input=-x", "none"),
        ("run F --table T --table T", "none"),
        ("run F --units U", "run F 16777216 - - units U"),
        ("run --units=F F --table T", "run F 16777216 - T units F"),
        ("run F --units U --units U", "none"),
        ("run F --units", "none"),
        ("best F --units U", "none"),
        ("best F --input I", "none"),
        ("asm T O --table X", "none"),
    ]
}

/// Addresses of options.
fn addresses() -> &'static [Told] {
    &[
        ("best F --at 0x100c4", "best F 3 2 - at 100c4"),
        ("best --at=0x000100C4 F", "best F 3 2 - at 100c4"),
        ("best F --at 0X1", "none"),
        ("best F --at 100c4", "none"),
        ("best F --at 0x", "none"),
        ("best F --at 0x123456789", "none"),
        ("best F --at 0xG", "none"),
        ("best F --at 0x1 --at 0x1", "none"),
        ("blocks F --at 0x1", "none"),
    ]
}

/// Leaders, which stand more than once.
fn leaders() -> &'static [Told] {
    &[
        ("blocks F", "blocks F"),
        ("blocks F --leader 0xFFFFFFFF", "blocks F leader ffffffff"),
        (
            "best --leader 0xab --at 0x4 F --leader=0x8 --leader 0xab",
            "best F 3 2 - at 4 leader ab leader 8 leader ab",
        ),
        ("blocks F --leader 0x4 --leader 4", "none"),
        ("blocks F --leader 0x4 --leader", "none"),
        ("blocks F --in 2", "none"),
        ("run F --leader 0x4", "none"),
    ]
}

/// Numbers and words, which stand by themselves.
fn numbers() -> &'static [Told] {
    &[
        (
            "eval U 3 0x0 0xFFFFffff 0x00000010",
            "eval U 3 0 4294967295 16",
        ),
        ("eval U 031 0x0 0x0 0x0", "eval U 31 0 0 0"),
        (
            "eval --e=0xffffffff U 1 0x2 --d 0x10 0x3 0x4",
            "eval U 1 2 3 4 d 10 e ffffffff",
        ),
        ("eval U 1 0x2 0x3 0x4 --e 0x5", "eval U 1 2 3 4 e 5"),
        ("eval U 1 0x2 0x3 0x4 0x5", "none"),
        ("eval U 1 0x2 0x3 0x4 --d 5", "none"),
        ("eval U 1 0x2 0x3 0x4 --d 0x5 --d 0x5", "none"),
        ("eval U 1 0x2 0x3 0x4 --a 0x5", "none"),
        ("best F --d 0x5", "none"),
        ("eval U 32 0x0 0x0 0x0", "none"),
        ("eval U 0x1 0x0 0x0 0x0", "none"),
        ("eval U 1 0x0 0x0 0", "none"),
        ("eval U 1 0x0 0x0", "none"),
        ("load 4294967295", "load 4294967295"),
        ("load 00000000001", "none"),
        ("load F", "none"),
    ]
}

#[test]
fn lines_read_as_these_words(rt: HostRuntime) -> Result<(), AllocError> {
    expect(&rt, anywhere())?;
    expect(&rt, choices())?;
    expect(&rt, versions())?;
    expect(&rt, pairs())?;
    expect(&rt, areas())?;
    expect(&rt, renames())?;
    expect(&rt, unreadable())?;
    expect(&rt, unreadable_options())?;
    expect(&rt, names())?;
    expect(&rt, runs())?;
    expect(&rt, budgets())?;
    expect(&rt, files())?;
    expect(&rt, addresses())?;
    expect(&rt, leaders())?;
    expect(&rt, numbers())
}
