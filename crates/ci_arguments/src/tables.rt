//! The commands and their options, a row each.

/// The commands by name.
#[derive(Clone, Copy)]
pub enum CommandName {
    /// `best`
    Best,
    /// `pair`
    Pair,
    /// `asm`
    Asm,
    /// `dis`
    Dis,
    /// `run`
    Run,
    /// `blocks`
    Blocks,
    /// `eval`
    Eval,
    /// `find`
    Find,
    /// `check`
    Check,
    /// `area`
    Area,
    /// `rename`
    Rename,
    /// `relog`
    Relog,
    /// `gates`
    Gates,
    /// `geval`
    Geval,
    /// `load`
    Load,
}

/// The options by name.
#[derive(Clone, Copy, PartialEq, Eq)]
pub enum OptionName {
    /// `--in`
    Inputs,
    /// `--out`
    Outputs,
    /// `--count`
    Count,
    /// `--budget`
    Budget,
    /// `--steps`
    Steps,
    /// `--units`
    Units,
    /// `--table`
    Table,
    /// `--input`
    Input,
    /// `--leader`
    Leader,
    /// `--at`
    At,
    /// `--d`
    ArgumentD,
    /// `--e`
    ArgumentE,
    /// `--log`
    LogVersion,
    /// `--limit`
    Limit,
}

/// What a command does with a file.
#[derive(Clone, Copy)]
pub enum Access {
    /// It reads the file.
    Reads,
    /// It writes the file.
    Writes,
}

/// What a positional word or the value of an option is.
#[derive(Clone, Copy)]
pub enum Kind {
    /// The name of a file, with what the command does with the file.
    File(Access),
    /// A number from the minimum to the maximum.
    Number { minimum: u64, maximum: u64 },
    /// A word of 32 bits, as an address is one.
    Word,
}

/// What an option is set to where it is not given.
#[derive(Clone, Copy)]
pub enum DefaultValue {
    /// This number.
    Number(u64),
    /// Nothing.
    Nothing,
    /// The option must be given.
    MustStand,
}

/// What an option is in each command that has it.
#[derive(Clone, Copy)]
pub struct OptionShape {
    /// Which option it is.
    pub option: OptionName,
    /// The kind of its values.
    pub kind: Kind,
    /// Whether it may stand more than once.
    pub repeatable: bool,
}

/// An option's name, without its hyphens, and its shape.
pub type NamedOption<'a> = (&'a str, OptionShape);

/// An option of a command, and what it is set to where it is not given.
pub type CommandOption<'a> = (NamedOption<'a>, DefaultValue);

/// The word that names a command, which command it is, its positional words by kind, and its options.
pub type CommandRow<'a> = (&'a str, CommandName, &'a [Kind], &'a [CommandOption<'a>]);

const READ: Kind = Kind::File(Access::Reads);

const WRITTEN: Kind = Kind::File(Access::Writes);

/// The number of a module or of a netlist.
const PLACE: Kind = Kind::Number {
    minimum: 0,
    maximum: 31,
};

/// The seed of a generated program.
const SEED: Kind = Kind::Number {
    minimum: 0,
    maximum: 4_294_967_295,
};

const IN: CommandOption<'static> = (
    (
        "in",
        OptionShape {
            option: OptionName::Inputs,
            kind: Kind::Number {
                minimum: 1,
                maximum: 5,
            },
            repeatable: false,
        },
    ),
    DefaultValue::Number(3),
);

const OUT: CommandOption<'static> = (
    (
        "out",
        OptionShape {
            option: OptionName::Outputs,
            kind: Kind::Number {
                minimum: 1,
                maximum: 3,
            },
            repeatable: false,
        },
    ),
    DefaultValue::Number(2),
);

const COUNT: CommandOption<'static> = (
    (
        "count",
        OptionShape {
            option: OptionName::Count,
            kind: Kind::Number {
                minimum: 1,
                maximum: 32,
            },
            repeatable: false,
        },
    ),
    DefaultValue::Number(32),
);

const BUDGET: CommandOption<'static> = (
    (
        "budget",
        OptionShape {
            option: OptionName::Budget,
            kind: Kind::Number {
                minimum: 1,
                maximum: 4_194_304,
            },
            repeatable: false,
        },
    ),
    DefaultValue::Number(65_536),
);

const STEPS: CommandOption<'static> = (
    (
        "steps",
        OptionShape {
            option: OptionName::Steps,
            kind: Kind::Number {
                minimum: 1,
                maximum: 4_294_967_296,
            },
            repeatable: false,
        },
    ),
    DefaultValue::Number(16_777_216),
);

const UNITS: CommandOption<'static> = (
    (
        "units",
        OptionShape {
            option: OptionName::Units,
            kind: READ,
            repeatable: false,
        },
    ),
    DefaultValue::Nothing,
);

const TABLE: CommandOption<'static> = (
    (
        "table",
        OptionShape {
            option: OptionName::Table,
            kind: READ,
            repeatable: false,
        },
    ),
    DefaultValue::Nothing,
);

const INPUT: CommandOption<'static> = (
    (
        "input",
        OptionShape {
            option: OptionName::Input,
            kind: READ,
            repeatable: false,
        },
    ),
    DefaultValue::Nothing,
);

const LEADER: CommandOption<'static> = (
    (
        "leader",
        OptionShape {
            option: OptionName::Leader,
            kind: Kind::Word,
            repeatable: true,
        },
    ),
    DefaultValue::Nothing,
);

const AT: CommandOption<'static> = (
    (
        "at",
        OptionShape {
            option: OptionName::At,
            kind: Kind::Word,
            repeatable: false,
        },
    ),
    DefaultValue::Nothing,
);

const ARGUMENT_D: CommandOption<'static> = (
    (
        "d",
        OptionShape {
            option: OptionName::ArgumentD,
            kind: Kind::Word,
            repeatable: false,
        },
    ),
    DefaultValue::Nothing,
);

const ARGUMENT_E: CommandOption<'static> = (
    (
        "e",
        OptionShape {
            option: OptionName::ArgumentE,
            kind: Kind::Word,
            repeatable: false,
        },
    ),
    DefaultValue::Nothing,
);

const LOG: NamedOption<'static> = (
    "log",
    OptionShape {
        option: OptionName::LogVersion,
        kind: Kind::Number {
            minimum: 1,
            maximum: 2,
        },
        repeatable: false,
    },
);

const LIMIT: CommandOption<'static> = (
    (
        "limit",
        OptionShape {
            option: OptionName::Limit,
            kind: Kind::Number {
                minimum: 0,
                maximum: 4_294_967_295,
            },
            repeatable: false,
        },
    ),
    DefaultValue::MustStand,
);

/// What a choice of cuts is bounded by and made from.
const CHOICE: &[CommandOption<'static>] = &[IN, OUT, COUNT, BUDGET, STEPS, TABLE, INPUT, LEADER];

/// What a choice is bounded by and made from, and the version of its log book.
const FIND: &[CommandOption<'static>] = &[
    IN,
    OUT,
    COUNT,
    BUDGET,
    STEPS,
    TABLE,
    INPUT,
    LEADER,
    (LOG, DefaultValue::Number(1)),
];

/// What a choice is bounded by and made from, and how many gates there is room for.
const AREA: &[CommandOption<'static>] = &[
    IN, OUT, COUNT, BUDGET, STEPS, TABLE, INPUT, LEADER, LIMIT,
];

/// What a search of a block is bounded by and made from.
const SEARCH: &[CommandOption<'static>] = &[IN, OUT, BUDGET, TABLE, LEADER, AT];

/// A file with modules or netlists, the number of one of them, and the first three words at which its value is taken.
const EVALUATED: &[Kind] = &[READ, PLACE, Kind::Word, Kind::Word, Kind::Word];

/// The other two words.
const OTHERS: &[CommandOption<'static>] = &[ARGUMENT_D, ARGUMENT_E];

/// The table of the commands.
pub const COMMANDS: &[CommandRow<'static>] = &[
    ("best", CommandName::Best, &[READ], SEARCH),
    ("pair", CommandName::Pair, &[READ], SEARCH),
    ("asm", CommandName::Asm, &[READ, WRITTEN], &[]),
    ("dis", CommandName::Dis, &[READ], &[]),
    (
        "run",
        CommandName::Run,
        &[READ],
        &[STEPS, UNITS, TABLE, INPUT],
    ),
    ("blocks", CommandName::Blocks, &[READ], &[LEADER]),
    ("eval", CommandName::Eval, EVALUATED, OTHERS),
    (
        "find",
        CommandName::Find,
        &[READ, WRITTEN, WRITTEN, WRITTEN, WRITTEN],
        FIND,
    ),
    (
        "check",
        CommandName::Check,
        &[READ, READ, READ, READ],
        CHOICE,
    ),
    ("area", CommandName::Area, &[READ], AREA),
    (
        "rename",
        CommandName::Rename,
        &[READ, WRITTEN],
        &[STEPS, INPUT, LEADER],
    ),
    (
        "relog",
        CommandName::Relog,
        &[READ, WRITTEN],
        &[(LOG, DefaultValue::Number(2))],
    ),
    ("gates", CommandName::Gates, &[READ, WRITTEN], &[]),
    ("geval", CommandName::Geval, EVALUATED, OTHERS),
    ("load", CommandName::Load, &[SEED], &[]),
];
