// What records and fields are called in words.
use records::layouts::Sort;

// The names of each layout's fields, in its order. They stand apart from the layouts, since a record is judged without them.
const HEADER: [&str; 13] = [
    "record sort",
    "kind of file",
    "code set",
    "biller code",
    "biller name",
    "transfer date",
    "bank",
    "bank name",
    "branch",
    "branch name",
    "deposit type",
    "account number",
    "filler",
];

const DATA: [&str; 14] = [
    "record sort",
    "bank",
    "bank name",
    "branch",
    "branch name",
    "filler",
    "deposit type",
    "account number",
    "payer name",
    "amount",
    "new code",
    "customer number",
    "result code",
    "filler",
];

const TRAILER: [&str; 8] = [
    "record sort",
    "count requested",
    "amount requested",
    "settled count",
    "settled amount",
    "failed count",
    "failed amount",
    "filler",
];

const END: [&str; 2] = ["record sort", "filler"];

// The words are this program's own: an impl of Display would have to stand with the sort, for every program.
pub fn sort_name(sort: Sort) -> &'static str {
    match sort {
        Sort::Header => "a header",
        Sort::Data => "a data record",
        Sort::Trailer => "a trailer",
        Sort::End => "an end record",
    }
}

// The name of the field of that number, counted from 1.
pub fn field_name(sort: Sort, number: usize) -> &'static str {
    let names: &[&str] = match sort {
        Sort::Header => &HEADER,
        Sort::Data => &DATA,
        Sort::Trailer => &TRAILER,
        Sort::End => &END,
    };
    let name = number.checked_sub(1).and_then(|index| names.get(index));
    name.copied().unwrap_or("filler")
}
