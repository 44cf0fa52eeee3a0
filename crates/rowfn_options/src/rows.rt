//! The options, as `--help` prints them.

/// What an option takes after its name.
#[derive(Clone, Copy)]
pub(crate) enum Takes {
    /// Nothing.
    Flag,
    /// A text.
    Text,
    /// A text, which may begin with a hyphen.
    AnyText,
    /// Such a text each time that the option is given.
    AnyTexts,
    /// A number from 1 that 32 bits hold.
    Number32,
    /// A number from 1 that 64 bits hold.
    Number64,
}

/// An option, as `--help` prints it.
#[derive(Clone, Copy)]
pub(crate) struct Row {
    pub(crate) id: &'static str,
    pub(crate) long: Option<&'static str>,
    pub(crate) short: Option<char>,
    pub(crate) takes: Takes,
    /// How its value is called; empty for a flag.
    pub(crate) value: &'static str,
    pub(crate) default: Option<&'static str>,
    /// Options that may not stand beside it.
    pub(crate) against: [Option<&'static str>; 2],
    pub(crate) help: &'static str,
}

/// An option that takes a text. Each row below says in what it differs.
const TEXT: Row = Row {
    id: "",
    long: None,
    short: None,
    takes: Takes::Text,
    value: "",
    default: None,
    against: [None, None],
    help: "",
};

/// A flag.
const FLAG: Row = Row {
    takes: Takes::Flag,
    ..TEXT
};

/// Where the expression and the rows are.
pub(crate) const SOURCES: [Row; 3] = [
    Row {
        id: "input-file",
        value: "INPUT-FILE",
        against: [Some("input"), None],
        help: "The file of the rows; standard input where there is none, or it is -",
        ..TEXT
    },
    Row {
        id: "input",
        long: Some("input"),
        value: "INPUT-FILE",
        help: "The file of the rows, as INPUT-FILE",
        ..TEXT
    },
    Row {
        id: "file",
        long: Some("file"),
        short: Some('f'),
        value: "EXPRESSION-FILE",
        help: "The file whose text is the expression, in place of EXPRESSION",
        ..TEXT
    },
];

/// What is done with rows.
pub(crate) const ACTIONS: [Row; 7] = [
    Row {
        id: "where",
        long: Some("where"),
        takes: Takes::AnyText,
        value: "EXPRESSION",
        help: "Take the rows in which this is true; without answers, write them as they are",
        ..TEXT
    },
    Row {
        id: "append",
        long: Some("append"),
        help: "Write each row's own fields before its answers",
        ..FLAG
    },
    Row {
        id: "explain",
        long: Some("explain"),
        help: "Print the expression with its types; write no rows",
        ..FLAG
    },
    Row {
        id: "errors",
        long: Some("errors"),
        value: "skip|stop",
        default: Some("stop"),
        help: "What a bad row does: it is reported and left out, or ends the stream",
        ..TEXT
    },
    Row {
        id: "errors-to",
        long: Some("errors-to"),
        value: "FILE",
        help: "The file that bad rows are reported in, as CSV: row, column, reason, field",
        ..TEXT
    },
    Row {
        id: "summary",
        long: Some("summary"),
        help: "Print at the end how many rows were read and written",
        ..FLAG
    },
    Row {
        id: "progress",
        long: Some("progress"),
        help: "Print, while rows are read, how many rows and bytes were",
        ..FLAG
    },
];

/// Indexes of files.
pub(crate) const INDEXES: [Row; 3] = [
    Row {
        id: "write-index",
        long: Some("write-index"),
        value: "FILE",
        help: "Write an index of the rows of --input to this file; write no rows",
        ..TEXT
    },
    Row {
        id: "index",
        long: Some("index"),
        value: "FILE",
        help: "Skip, by this index, parts of --input in which --where is true nowhere",
        ..TEXT
    },
    Row {
        id: "chunk-rows",
        long: Some("chunk-rows"),
        takes: Takes::Number32,
        value: "N",
        default: Some("8192"),
        help: "How many rows a part has that an index describes, at most",
        ..TEXT
    },
];

/// How rows are read.
pub(crate) const READING: [Row; 8] = [
    Row {
        id: "columns",
        long: Some("columns"),
        value: "COLUMNS",
        help: "Columns and their types: 'price decimal(12,2), day date?, 3 as category utf8'",
        ..TEXT
    },
    Row {
        id: "no-infer",
        long: Some("no-infer"),
        help: "Take no types from the first rows: columns are the declared ones",
        ..FLAG
    },
    Row {
        id: "first-row",
        long: Some("first-row"),
        takes: Takes::Number64,
        value: "N",
        default: Some("1"),
        help: "The number of the first row in reports, as for a part of a whole",
        ..TEXT
    },
    Row {
        id: "batch",
        long: Some("batch"),
        takes: Takes::Number32,
        value: "N",
        help: "How many rows are read, answered and written together, at most: 2048 unless it is \
               said, or 64 for each item of a list of more than 32, up to 65536",
        ..TEXT
    },
    Row {
        id: "batch-bytes",
        long: Some("batch-bytes"),
        takes: Takes::Number64,
        value: "N",
        help: "With how many bytes of the input those rows are enough: 1048576 unless it is said, \
               or 4096 for each item of a list of more than 256, up to 4194304",
        ..TEXT
    },
    Row {
        id: "ragged",
        long: Some("ragged"),
        value: "refuse|fit",
        default: Some("refuse"),
        help: "What a record of another length than the header is: a bad row, or, by fit, a row \
               whose missing fields are null and whose fields past the header must be empty",
        ..TEXT
    },
    Row {
        id: "flush",
        long: Some("flush"),
        help: "Write what is answered whenever the input pauses",
        ..FLAG
    },
    Row {
        id: "max-field",
        long: Some("max-field"),
        takes: Takes::Number64,
        value: "N",
        default: Some("268435456"),
        help: "How many bytes a field has, at most",
        ..TEXT
    },
];

/// How fields are written, in the input and in the output.
pub(crate) const FIELDS: [Row; 9] = [
    Row {
        id: "delimiter",
        long: Some("delimiter"),
        short: Some('d'),
        value: "BYTE",
        help: "The byte between two fields, \\t for a tab; without it a tab in files that end in .tsv \
               or .tab, else a comma",
        ..TEXT
    },
    Row {
        id: "output-delimiter",
        long: Some("output-delimiter"),
        value: "BYTE",
        against: [Some("append"), None],
        help: "The byte between two answers; that of --delimiter where there is none",
        ..TEXT
    },
    Row {
        id: "comment",
        long: Some("comment"),
        value: "BYTE",
        help: "A line that begins with this byte is skipped",
        ..TEXT
    },
    Row {
        id: "header",
        long: Some("header"),
        against: [Some("no-header"), None],
        help: "The first record names the columns (default)",
        ..FLAG
    },
    Row {
        id: "no-header",
        long: Some("no-header"),
        help: "No record names columns: they are those of --columns, or else c1, c2, ..",
        ..FLAG
    },
    Row {
        id: "null",
        long: Some("null"),
        short: Some('n'),
        takes: Takes::AnyTexts,
        value: "TEXT",
        default: Some(""),
        help: "A text that is null in no quotes; of several each is read, the first is written",
        ..TEXT
    },
    Row {
        id: "null-quoted",
        long: Some("null-quoted"),
        help: "The texts of --null are null in quotes too, as PostgreSQL's FORCE_NULL has it",
        ..FLAG
    },
    Row {
        id: "blank-lines",
        long: Some("blank-lines"),
        value: "null|skip",
        default: Some("skip"),
        help: "What an empty line is: a row of one null, or nothing",
        ..TEXT
    },
    Row {
        id: "bool",
        long: Some("bool"),
        value: "plain|any",
        default: Some("plain"),
        help: "How truth values are read: true and false, or t, True, TRUE and 1 too",
        ..TEXT
    },
];
