//! Rows of fields, which one writer writes.

ghost use Rattle.std.specs.Prelude.{◌≡◌, ◌<◌, ◌^◌, ℤ, unsigned_abs, [], ◌∷◌, ◌++◌, map, IfOk, OnOk};
ghost use Rattle.std.specs.List.{list_all};
ghost use Rattle.csv.specs.Records.{fields_of, partial_of};
ghost use Rattle.cf_base.specs.Common.{money_of};
ghost use Rattle.cf_books_lists.specs.Records as spec;
ghost use Rattle.cf_books_lists.specs.Records.{guarded, head_text, record_text};
ghost use Rattle.cf_books_lists.specs.Rows.{StandsBefore, added, none_written, text_in};

use csv::{ByteRecord, Writer, WriterBuilder};
use std::alloc::{AllocError, Global};
use std::marker::Model;

/// How rows are laid out: as records of comma-separated values below a row of names, or as fields
/// with tabs between them.
#[derive(Clone, Copy)]
pub struct Layout {
    pub alloc: Global,
    pub csv: bool,
}

/// A writer that has written nothing.
fn writer(layout: Layout) -> Writer<Vec<u8>>
    ensures before { StandsBefore layout.csv result }
    ensures text { text_in result ≡ [] }
{
    if layout.csv {
        return Writer::from_writer(Vec::new(layout.alloc));
    }
    let mut setup = WriterBuilder::new();
    setup.delimiter(b'\t').from_writer(Vec::new(layout.alloc))
}

// ---- what a spreadsheet takes for a formula

/// Whether a byte begins a formula.
fn begins_formula(byte: u8) -> bool
    ensures { result ≡ spec.begins_formula byte }
{
    byte == b'=' || byte == b'+' || byte == b'@' || byte == b'\t' || byte == b'\r'
}

/// Whether a text is what may follow the minus of an amount: digits, and a point.
fn is_unsigned(text: &[u8]) -> bool
    ensures { result ≡ list_all spec.is_unsigned_byte text.now }
{
    text.iter().all(|c| *c == b'.' || b'0' <= *c && *c <= b'9')
}

/// Whether a spreadsheet takes a field for a formula. An amount, up to what 128 bits hold, is none,
/// and stands as it is.
#[tactic(auto, using(crate::proofs::Formulas::amount_stands))]
fn is_formula(field: &[u8]) -> bool
    ensures value { result ≡ spec.is_formula field.now }
    ensures amounts { (amount : ℤ) → unsigned_abs amount < 2 ^ 128 → guarded (money_of amount)
        ≡ money_of amount }
{
    match field.split_first() {
        Some((first, rest)) => begins_formula(*first) || *first == b'-' && !is_unsigned(rest),
        None => false,
    }
}

/// Adds a field to a record, with a quote before a formula. Where there is no memory, the record is
/// of no use.
fn put_guarded(alloc: Global, row: &mut ByteRecord, field: &[u8]) -> Result<(), AllocError>
    requires { partial_of row.old ≡ [] }
    ensures fields { OnOk result (fields_of row.new ≡ fields_of row.old
        ++ (guarded field.now ∷ [])) }
    ensures partial { OnOk result (partial_of row.new ≡ []) }
{
    if !is_formula(field) {
        return row.push_field(field);
    }
    let mut text = Vec::new(alloc);
    text.push(b'\'')?;
    text.extend_from_slice(field)?;
    row.push_field(text.as_slice())
}

/// The record of these fields, with a quote before each formula.
fn guarded_record(alloc: Global, fields: &[&[u8]]) -> Result<ByteRecord, AllocError>
    ensures { IfOk result (λ row. fields_of row ≡ map guarded (map (λ f. f.now) fields.now)) }
{
    let mut row = ByteRecord::new(alloc);
    for field in fields {
        put_guarded(alloc, &mut row, field)?;
    }
    Ok(row)
}

/// Writes a row as it is laid out. Where there is no memory for it, the writer is of no use.
#[tactic(auto, unfolding(crate::specs::Records::record_text))]
fn write_row(layout: Layout, out: &mut Writer<Vec<u8>>, fields: &[&[u8]]) -> Result<(), AllocError>
    requires { StandsBefore layout.csv out.old }
    ensures before { OnOk result (StandsBefore layout.csv out.new) }
    ensures text { OnOk result (text_in out.new ≡ text_in out.old
        ++ record_text layout.csv (map (λ f. f.now) fields.now)) }
{
    if layout.csv {
        let row = guarded_record(layout.alloc, fields)?;
        return out.write_byte_record(&row).map_err(|_| AllocError);
    }
    out.write_fields(fields).map_err(|_| AllocError)
}

// ---- rows

/// Rows that were written, all with the same number of fields: a contract sees how they are laid
/// out, and their text.
#[derive(Drop)]
pub struct Rows {
    layout: Layout,
    out: Writer<Vec<u8>>,
}

impl Model for Rows {
    ghost use Rattle.cf_books_lists.specs.Rows.{StandsBefore, Written, text_in};

    ghost Value = { Written };

    ghost view = { λ r. record { csv = r.layout.csv; text = text_in r.out } };

    ghost invariant = { λ r. StandsBefore r.layout.csv r.out };
}

impl Rows {
    /// No row.
    pub fn new(layout: Layout) -> Rows
        ensures { result ≡ none_written layout.csv }
    {
        Rows {
            layout,
            out: writer(layout),
        }
    }

    /// Writes a row: as a record with a quote before each field that a spreadsheet takes for a
    /// formula, or with tabs as it is. Where there is no memory for it, none is left.
    pub fn put(&mut self, fields: &[&[u8]]) -> Result<(), AllocError>
        ensures { OnOk result (self.new ≡ added self.old
            (record_text self.old.csv (map (λ f. f.now) fields.now))) }
    {
        let written = write_row(self.layout, &mut self.out, fields);
        if written.is_err() {
            self.out = writer(self.layout);
        }
        written
    }

    /// Writes the names of the columns, where records are written.
    pub fn put_names(&mut self, names: &[&[u8]]) -> Result<(), AllocError>
        ensures { OnOk result (self.new ≡ added self.old
            (head_text self.old.csv (map (λ f. f.now) names.now))) }
    {
        if self.layout.csv {
            self.put(names)
        } else {
            Ok(())
        }
    }

    /// The text of the rows.
    pub fn into_text(self) -> Result<Vec<u8>, AllocError>
        ensures { IfOk result (λ bytes. bytes.items ≡ self.text) }
    {
        match self.out.into_inner() {
            Ok(text) => Ok(text),
            Err(_) => Err(AllocError),
        }
    }
}
