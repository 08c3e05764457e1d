// Fields and components of a record.
#![tactic(auto)]

ghost use Rattle.std.specs.Prelude.{◌≡◌};
ghost use Rattle.records.specs.Fields.{field_of};
ghost use Rattle.component.specs.Component.{component_end};
ghost use Rattle.component.specs.ResultFields.{result_number};

use kinds::Delimiters;

// The fields of a result record (R): test, value, units, flag, status and completion time, each with its number.
#[derive(Clone, Copy)]
pub enum ResultField {
    Test = 3,
    Value = 4,
    Units = 5,
    Flag = 7,
    Status = 9,
    Completion = 13,
}

// The end of the component that starts at `start`: the first | \ ^ or CR from there on, or the end of the text.
pub fn component_end(d: Delimiters, text: &[u8], start: usize) -> usize
    ensures { result ≡ component_end d text.now start }
{
    let stops = [d.field, d.repeat, d.component, characters::CR];
    for i in start..text.len() {
        if stops.contains(&text[i]) {
            return i;
        }
    }
    start.max(text.len())
}

// A record's field, counted from 1: a part of the record, empty where the field is absent.
pub fn field_of<'a>(d: Delimiters, rec: &'a [u8], n: usize) -> &'a [u8]
    ensures { result.now ≡ field_of d.field n rec.now }
{
    if n == 0 {
        return &rec[0..0];
    }
    let b = d.field;
    let mut at: usize = 0;
    for _ in 1..n {
        if rec.len() <= at {
            return &rec[0..0];
        }
        let e = records::index_of(&rec[at..], b);
        at += e + 1;
    }
    if rec.len() <= at {
        return &rec[0..0];
    }
    let rest = &rec[at..];
    let e = records::index_of(rest, b);
    &rest[..e]
}

// A named field of a result record.
pub fn result_field<'a>(d: Delimiters, rec: &'a [u8], f: ResultField) -> &'a [u8]
    ensures { result.now ≡ field_of d.field (result_number f) rec.now }
{
    field_of(d, rec, f as usize)
}
