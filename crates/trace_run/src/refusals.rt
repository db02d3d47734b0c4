// Refusals as a person reads them.
use desk::Trouble;
use region_text::Fault;
use shelf::{Number, Refusal};
use std::alloc::Global;

// What a refusal means, in a few words. No `Display`: as it is printed a refusal is its number.
fn number_words(number: Number) -> &'static str {
    match number {
        Number::Sizes => "the rows or labels are not as many as the regions own",
        Number::Region => "there is no such region",
        Number::Source => "no source is held",
        Number::Schedule => "no schedule is held",
        Number::NotPassed => "the schedule has not passed",
        Number::Text(fault) => fault_words(fault),
        Number::Entry => "the line has no such entry",
        Number::State => "a state has 80 words",
    }
}

fn fault_words(fault: Fault) -> &'static str {
    match fault {
        Fault::Malformed =>
            "unknown letter, wrong number of fields, no LF at the end, or a malformed field",
        Fault::OutOfRange => "number out of its range",
        Fault::Label => "label not declared, or declared twice",
        Fault::TooMany => "one too many",
        Fault::OutOfPlace => "record in the wrong place, or no E record",
    }
}

/// A refusal, and the file or call that it is about.
pub(crate) fn refused(heap: Global, about: &str, refusal: Refusal) -> Trouble {
    let number = refusal.number.printed();
    let line = refusal.line;
    let field = refusal.field;
    let layer = refusal.layer.name();
    let words = number_words(refusal.number);
    format!(in heap;
        "{about}: line {line}, field {field}: {words} (refusal {number}, layer {layer})"
    ).map_or_else(Trouble::Memory, Trouble::Said)
}
