//! The message of each error, once.
use gms_check::{CompileError, ErrorKind};
use gms_eval::{Binding, ExecStop, ExecStopOrMemory, StopKind};
use gms_expressions::{SyntaxError, SyntaxFault, SyntaxFaultOrMemory};
use gms_grammar::{ByteFault, LexError};
use gms_host::Failed;
use gms_labels::{LabelFault, Place};
use gms_lex::{LexFault, LexFaultOrMemory};
use gms_parse::{SourceError, SourceFault, SourceFaultOrMemory};
use gms_save::{SaveFault, SaveFaultOrMemory};
use gms_save_text::ReadFault;
use gms_set::{SetError, SetFault, SetFaultOrMemory};
use gms_table::{TableError, TableFault, TableFaultOrMemory};
use gq_extended::{Ext, ExtendedFault};
use gq_field::{ExactField, Limit, Tiny};
use gq_text::NumberFault;
use lp_core::StepName;
use lp_form::FormFault;
use lp_std::Stop;
use std::alloc::Global;
use std::fmt::Display;
use std::process::Abort;

/// A place of two digits each.
const AT: Place = Place {
    line: 31,
    column: 14,
};

const BEYOND: &str = "beyond the field's limit";

const MEMORY: &str = "out of memory";

/// Compares the message of each error with the expected one.
fn check<E: Display>(rt: &impl Abort, alloc: Global, rows: &[(E, &str)]) {
    for (error, expected) in rows {
        let text = format!(in alloc; "{error}").expect(rt, "memory");
        assert!(rt; text.as_str() == *expected, "{expected}");
    }
}

const LIMITS: [(Limit, &str); 1] = [(Limit, BEYOND)];

const NUMBERS: [(NumberFault, &str); 2] = [
    (NumberFault::Shape, "not a number"),
    (NumberFault::Limit, BEYOND),
];

const EXTENDED: [(ExtendedFault, &str); 4] = [
    (ExtendedFault::Limit, BEYOND),
    (ExtendedFault::Divide, "division by zero"),
    (ExtendedFault::Undefined, "an undefined step"),
    (
        ExtendedFault::Exponent,
        "an exponent that is not whole or exceeds 1,024",
    ),
];

const STEPS: [(StepName, &str); 5] = [
    (
        StepName::Standard {
            row: 1,
            column: 2,
            part: 0,
        },
        "beyond the field's limit in the standard form: row 1, column 2, part 0",
    ),
    (
        StepName::Ratio { pivot: 3, row: 4 },
        "beyond the field's limit in a ratio: pivot 3, row 4",
    ),
    (
        StepName::Exchange {
            pivot: 5,
            row: 6,
            column: 7,
            part: 1,
        },
        "beyond the field's limit in an exchange: pivot 5, row 6, column 7, part 1",
    ),
    (
        StepName::Recover {
            what: 2,
            index: 8,
            entry: 9,
            part: 0,
        },
        "beyond the field's limit in the recovery: list 2, index 8, entry 9, part 0",
    ),
    (
        StepName::Check { part: 10 },
        "beyond the field's limit in a check: part 10",
    ),
];

const STOPS: [(Stop, &str); 3] = [
    (
        Stop::Limit(StepName::Check { part: 10 }),
        "beyond the field's limit in a check: part 10",
    ),
    (
        Stop::Crossed(3),
        "the lower bound of column 3 exceeds its upper bound",
    ),
    (Stop::Memory, MEMORY),
];

#[test]
fn messages_of_numbers_and_programs(rt: HostRuntime) {
    let alloc = rt.alloc();
    check(&rt, alloc, &LIMITS);
    check(&rt, alloc, &NUMBERS);
    check(&rt, alloc, &EXTENDED);
    check(&rt, alloc, &STEPS);
    check(&rt, alloc, &STOPS);
    let forms = [
        (FormFault::Limit(None), BEYOND),
        (FormFault::Memory, MEMORY),
    ];
    check(&rt, alloc, &forms);
}

const LABELS: [(LabelFault, &str); 2] = [
    (LabelFault::Full, "over 65,536 labels"),
    (LabelFault::Memory, MEMORY),
];

const LEXICAL: [(LexError, &str); 6] = [
    (LexError::BadByte, "a byte that cannot occur here"),
    (
        LexError::OpenQuote,
        "a quotation mark not closed on its line",
    ),
    (LexError::OpenText, "`$ontext` without `$offtext`"),
    (LexError::LongLabel, "a name or label of over 63 bytes"),
    (LexError::LongLine, "a line of over 32,768 bytes"),
    (LexError::UnknownControl, "an unknown control word"),
];

const SYNTAX: [(SyntaxError, &str); 5] = [
    (SyntaxError::Expected, "unexpected token"),
    (SyntaxError::Depth, "over 100 open parentheses"),
    (SyntaxError::Number, "a number out of range"),
    (
        SyntaxError::NotInProfile,
        "a word outside this profile of the language",
    ),
    (SyntaxError::TooManyLabels, "over 65,536 labels"),
];

const TABLES: [(TableError, &str); 6] = [
    (TableError::NoColumn, "a number under no heading"),
    (TableError::TwoColumns, "a number under two headings"),
    (
        TableError::RepeatedEntry,
        "a second number for the same row and heading",
    ),
    (TableError::BadRow, "malformed heading, row label or number"),
    (TableError::NoHeading, "a table without headings"),
    (TableError::Labels, "over 65,536 labels"),
];

const SOURCES: [(SourceError, &str); 4] = [
    (SourceError::TooLong, "a source of over 1,048,576 bytes"),
    (
        SourceError::Lexical(LexError::LongLine),
        "a line of over 32,768 bytes",
    ),
    (
        SourceError::Syntax(SyntaxError::Expected),
        "unexpected token",
    ),
    (
        SourceError::Table(TableError::NoHeading),
        "a table without headings",
    ),
];

const SETS: [(SetError, &str); 4] = [
    (SetError::BadRange, "not a range"),
    (SetError::Repeated, "an element given twice"),
    (SetError::Outside, "a label outside its position's set"),
    (SetError::Full, "over 1,048,576 elements"),
];

#[test]
fn messages_of_sources(rt: HostRuntime) {
    let alloc = rt.alloc();
    check(&rt, alloc, &LABELS);
    check(&rt, alloc, &LEXICAL);
    check(&rt, alloc, &SYNTAX);
    check(&rt, alloc, &TABLES);
    check(&rt, alloc, &SOURCES);
    check(&rt, alloc, &SETS);
}

const BYTES: [(ByteFault, &str); 1] = [(
    ByteFault {
        error: LexError::BadByte,
        at: 7,
    },
    "byte 7: 1 BadByte: a byte that cannot occur here",
)];

const LEXED: [(LexFaultOrMemory, &str); 2] = [
    (
        LexFaultOrMemory::Fault(LexFault {
            error: LexError::OpenQuote,
            at: AT,
        }),
        "31:14: 2 OpenQuote: a quotation mark not closed on its line",
    ),
    (LexFaultOrMemory::Memory, MEMORY),
];

const EXPRESSIONS: [(SyntaxFaultOrMemory, &str); 2] = [
    (
        SyntaxFaultOrMemory::Fault(SyntaxFault {
            error: SyntaxError::Depth,
            at: AT,
        }),
        "31:14: 12 Depth: over 100 open parentheses",
    ),
    (SyntaxFaultOrMemory::Memory, MEMORY),
];

const ROWS: [(TableFaultOrMemory, &str); 2] = [
    (
        TableFaultOrMemory::Fault(TableFault {
            error: TableError::BadRow,
            at: AT,
        }),
        "31:14: 24 BadRow: malformed heading, row label or number",
    ),
    (TableFaultOrMemory::Memory, MEMORY),
];

const PARSED: [(SourceFaultOrMemory, &str); 2] = [
    (
        SourceFaultOrMemory::Fault(SourceFault {
            error: SourceError::Table(TableError::TwoColumns),
            at: AT,
        }),
        "31:14: 22 TwoColumns: a number under two headings",
    ),
    (SourceFaultOrMemory::Memory, MEMORY),
];

const DATA: [(SetFaultOrMemory, &str); 2] = [
    (
        SetFaultOrMemory::Fault(SetFault {
            error: SetError::Repeated,
            at: AT,
        }),
        "31:14: 2 Repeated: an element given twice",
    ),
    (SetFaultOrMemory::Memory, MEMORY),
];

#[test]
fn messages_with_places(rt: HostRuntime) {
    let alloc = rt.alloc();
    check(&rt, alloc, &BYTES);
    check(&rt, alloc, &LEXED);
    check(&rt, alloc, &EXPRESSIONS);
    check(&rt, alloc, &ROWS);
    check(&rt, alloc, &PARSED);
    check(&rt, alloc, &DATA);
}

const COMPILE: [(ErrorKind, &str); 22] = [
    (ErrorKind::UnknownName, "an unknown name"),
    (ErrorKind::Redeclared, "a name declared twice"),
    (
        ErrorKind::WrongKind,
        "a symbol, suffix or value of a kind that cannot occur here",
    ),
    (ErrorKind::WrongArity, "a wrong number of indices"),
    (
        ErrorKind::DomainOfSet,
        "an index set outside its position's set",
    ),
    (
        ErrorKind::DomainOfLabel,
        "a label outside its position's set",
    ),
    (
        ErrorKind::Uncontrolled,
        "an index set that nothing controls",
    ),
    (ErrorKind::ControlledTwice, "a set controlled twice"),
    (
        ErrorKind::NotOrdered,
        "`ord` or a lag of a set that is not ordered",
    ),
    (ErrorKind::DynamicDomain, "an assigned set as a domain"),
    (ErrorKind::Nonlinear, "a nonlinear step in an equation"),
    (ErrorKind::Discrete, "a discrete variable"),
    (ErrorKind::ModelType, "a model type other than `lp`"),
    (ErrorKind::NotDefined, "an equation without a definition"),
    (ErrorKind::DefinedTwice, "an equation defined twice"),
    (
        ErrorKind::Objective,
        "an objective that is not a free variable without indices",
    ),
    (ErrorKind::UnknownSolver, "an unknown solver"),
    (ErrorKind::OptionRange, "an option's value out of range"),
    (
        ErrorKind::Endogenous,
        "a variable without suffix outside an equation",
    ),
    (
        ErrorKind::Function,
        "an unsupported function or a wrong number of arguments",
    ),
    (
        ErrorKind::DataFault,
        "not a range, an element given twice or over 1,048,576 elements",
    ),
    (
        ErrorKind::Restart,
        "a saved variable or set that a restarted run cannot change",
    ),
];

const CHECKED: [(CompileError, &str); 1] = [(
    CompileError {
        kind: ErrorKind::DomainOfLabel,
        at: AT,
    },
    "31:14: 6 DomainOfLabel: a label outside its position's set",
)];

const EXECUTION: [(StopKind, &str); 11] = [
    (StopKind::Limit, BEYOND),
    (StopKind::Divide, "division by zero"),
    (StopKind::LagNotWhole, "a lag that is not whole"),
    (
        StopKind::EmptyExtreme,
        "the smallest or largest of no values",
    ),
    (
        StopKind::Exponent,
        "an exponent that is not whole or exceeds 1,024",
    ),
    (StopKind::DomainSize, "a domain of over 16,777,216 elements"),
    (StopKind::TooManyRows, "a linear program of over 1,500 rows"),
    (
        StopKind::TooManyColumns,
        "a linear program of over 3,000 columns",
    ),
    (StopKind::NoSolver, "a solve without a solver"),
    (StopKind::Aborted, "stopped by an `abort` statement"),
    (StopKind::Undefined, "an undefined step"),
];

const READING: [(ReadFault, &str); 2] = [
    (ReadFault::Memory, MEMORY),
    (ReadFault::Shape, "not a saved state's text"),
];

const SAVED: [(SaveFaultOrMemory, &str); 4] = [
    (SaveFaultOrMemory::Memory, MEMORY),
    (SaveFaultOrMemory::Fault(SaveFault::SaveShape), "not a save"),
    (
        SaveFaultOrMemory::Fault(SaveFault::SaveTooLong),
        "a save of over 67,108,864 bytes",
    ),
    (
        SaveFaultOrMemory::Fault(SaveFault::SaveSolver),
        "the saved solver does not exist here",
    ),
];

const OUTSIDE: [(Failed, &str); 2] = [
    (Failed::Fault, "an input or output operation failed"),
    (Failed::Memory, MEMORY),
];

#[test]
fn messages_of_runs(rt: HostRuntime) {
    let alloc = rt.alloc();
    check(&rt, alloc, &COMPILE);
    check(&rt, alloc, &CHECKED);
    check(&rt, alloc, &EXECUTION);
    check(&rt, alloc, &READING);
    check(&rt, alloc, &SAVED);
    check(&rt, alloc, &OUTSIDE);
    let stop = ExecStop {
        kind: StopKind::Divide,
        at: AT,
        binding: Binding::new(alloc),
        left: Ext::Number(Tiny::one()),
        right: Ext::Number(Tiny::zero()),
        count: 0,
    };
    let stop = Box::new(alloc, stop).expect(&rt, "memory");
    let stops = [
        (
            ExecStopOrMemory::Fault(stop),
            "31:14: 2 Divide: division by zero",
        ),
        (ExecStopOrMemory::Memory, MEMORY),
    ];
    check(&rt, alloc, &stops);
}
