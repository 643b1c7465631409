//! Each post of each entry, on both bases.

ghost use Rattle.std.specs.Prelude.{◌≡◌, ◌++◌, Some, IfOk, IfErr, OnOk};
ghost use Rattle.cf_base.specs.Common.{money_of};
ghost use Rattle.cf_journal_book.specs.Openings.{OpensBook, OpensNone};
ghost use Rattle.cf_journal_book.specs.Watching.{all_posted};
ghost use Rattle.cf_books_lists.specs.Posts as spec;
ghost use Rattle.cf_json_calls.specs.CallText.{call_word as word_of};
ghost use Rattle.cf_books_lists.specs.Names.{account_text, basis_word as basis_text};
ghost use Rattle.cf_books_lists.specs.Records.{head_text, record_text};
ghost use Rattle.cf_books_lists.specs.Rows.{added, none_written};

use crate::names::{basis_word, fund_name, put_account};
use crate::rows::{Layout, Rows};
use crate::texts::{digits, drawn_digits, put_money};
use cf_base::day_text;
use cf_books_words::PostFilter;
use cf_budget::LineChange;
use cf_calls::{Basis, Entry};
use cf_chart::Chart;
use cf_disk::Disk;
use cf_journal_book::{Book, NotOpened, Watch, open_watched};
use cf_json_calls::call_word;
use cf_ledger::Post;
use cf_registers::Registers;
use itoa::Buffer;
use std::alloc::{AllocError, Global};

/// Whether this number is asked for: each is, where none is named.
pub fn is_asked(asked: Option<u32>, number: u32) -> bool
    ensures { result ≡ spec.is_asked asked number }
{
    match asked {
        Some(asked) => asked == number,
        None => true,
    }
}

/// Whether this id or year is asked for: each is, where none is named.
pub fn is_id_asked(asked: Option<u16>, id: u16) -> bool
    ensures { result ≡ spec.is_asked asked id }
{
    match asked {
        Some(asked) => asked == id,
        None => true,
    }
}

/// Whether a post is asked for.
fn is_wanted(filter: PostFilter, post: &Post) -> bool
    ensures { result ≡ spec.is_wanted filter post.now }
{
    is_id_asked(filter.year, post.year)
        && is_id_asked(filter.fund, post.fund)
        && is_asked(filter.account, post.account)
}

/// A post of the entry at a place.
#[derive(Clone, Copy)]
pub struct PlacedPost {
    /// Counted from 1.
    pub place: u64,
    pub basis: Basis,
    pub post: Post,
}

/// The posts that were seen.
#[derive(Drop)]
struct Gathered {
    posts: Vec<PlacedPost>,
}

impl Watch for Gathered {
    ghost has_seen = { λ g _ seen. g.posts.items ≡ spec.placed_in seen };

    fn see(
        &mut self,
        _chart: &Chart,
        place: u64,
        _entry: &Entry,
        _before: &Registers,
        _changes: &[LineChange],
        fund: &[Post],
        gov: &[Post],
    ) -> Result<(), AllocError> {
        put_placed(&mut self.posts, place, Basis::Fund, fund)?;
        put_placed(&mut self.posts, place, Basis::Gov, gov)
    }
}

/// Adds the posts of the entry at a place on a basis.
fn put_placed(
    out: &mut Vec<PlacedPost>,
    place: u64,
    basis: Basis,
    posts: &[Post],
) -> Result<(), AllocError>
    ensures { OnOk result (out.new.items ≡ out.old.items ++ spec.placed place basis posts.now) }
{
    for post in posts {
        out.push(PlacedPost {
            place,
            basis,
            post: *post,
        })?;
    }
    Ok(())
}

/// Where posts are written, with memory for the texts that are made anew for each.
#[derive(Drop)]
struct Sheet {
    out: Rows,
    name: Vec<u8>,
    amount: Vec<u8>,
}

/// A sheet with nothing on it.
fn blank_sheet(layout: Layout) -> Sheet
    ensures { result.out ≡ none_written layout.csv }
{
    Sheet {
        out: Rows::new(layout),
        name: Vec::new(layout.alloc),
        amount: Vec::new(layout.alloc),
    }
}

/// Makes the texts of a post that are made of several.
fn make_texts(sheet: &mut Sheet, chart: &Chart, post: &Post) -> Result<(), AllocError>
    ensures name { OnOk result (sheet.new.name.items ≡ account_text chart.now post.now.account) }
    ensures amount { OnOk result (sheet.new.amount.items ≡ money_of post.now.amount) }
    ensures out { sheet.new.out ≡ sheet.old.out }
{
    sheet.name.clear();
    put_account(&mut sheet.name, chart, post.account)?;
    sheet.amount.clear();
    put_money(&mut sheet.amount, post.amount)
}

/// The word of an entry's call.
fn call_bytes(entry: &Entry) -> &[u8]
    ensures { result.now ≡ word_of entry.now.change.act }
{
    call_word(&entry.change.act).as_bytes()
}

/// The word of a basis.
fn basis_bytes(basis: &Basis) -> &[u8]
    ensures { result.now ≡ basis_text basis.now }
{
    basis_word(*basis).as_bytes()
}

/// Writes the record of a post.
fn put_post(
    sheet: &mut Sheet,
    chart: &Chart,
    place: u64,
    entry: &Entry,
    basis: Basis,
    post: &Post,
) -> Result<(), AllocError>
    ensures { OnOk result (sheet.new.out ≡ added sheet.old.out
        (record_text sheet.old.out.csv (spec.post_row chart.now place entry.now basis post.now))) }
{
    make_texts(sheet, chart, post)?;
    let change = &entry.change;
    let (mut at, mut desk, mut number) = (Buffer::new(), Buffer::new(), Buffer::new());
    let (mut year, mut fund, mut account) = (Buffer::new(), Buffer::new(), Buffer::new());
    let day = day_text(change.on);
    let fields = [
        digits(&mut at, place),
        day.as_slice(),
        digits(&mut desk, change.desk as u64),
        change.key.as_str().as_bytes(),
        call_bytes(entry),
        drawn_digits(&mut number, entry.drawn.number as u64),
        basis_bytes(&basis),
        digits(&mut year, post.year as u64),
        digits(&mut fund, post.fund as u64),
        fund_name(chart.fund(post.fund)).as_bytes(),
        digits(&mut account, post.account as u64),
        sheet.name.as_slice(),
        sheet.amount.as_slice(),
    ];
    sheet.out.put(fields.as_slice())
}

/// Writes the record of a post, where it is asked for.
fn put_asked(
    sheet: &mut Sheet,
    filter: PostFilter,
    chart: &Chart,
    entry: &Entry,
    placed: &PlacedPost,
) -> Result<(), AllocError>
    ensures { OnOk result (sheet.new.out ≡ added sheet.old.out
        (spec.entry_text sheet.old.out.csv filter chart.now (Some entry.now) placed.now)) }
{
    let wanted = is_wanted(filter, &placed.post);
    if wanted {
        let PlacedPost { place, basis, post } = *placed;
        put_post(sheet, chart, place, entry, basis, &post)
    } else {
        Ok(())
    }
}

/// Writes the record of a post of one of these entries, where it is asked for.
fn put_placed_row(
    sheet: &mut Sheet,
    filter: PostFilter,
    chart: &Chart,
    entries: &[Entry],
    placed: &PlacedPost,
) -> Result<(), AllocError>
    ensures { OnOk result (sheet.new.out ≡ added sheet.old.out
        (spec.placed_text sheet.old.out.csv filter chart.now entries.now placed.now)) }
{
    match entries.get(placed.place.saturating_sub(1) as usize) {
        Some(entry) => put_asked(sheet, filter, chart, entry, placed),
        None => Ok(()),
    }
}

/// Writes the records of posts of these entries that are asked for.
fn put_rows(
    sheet: &mut Sheet,
    filter: PostFilter,
    chart: &Chart,
    entries: &[Entry],
    posts: &[PlacedPost],
) -> Result<(), AllocError>
    ensures { OnOk result (sheet.new.out ≡ added sheet.old.out
        (spec.rows_text sheet.old.out.csv filter chart.now entries.now posts.now)) }
{
    for post in posts {
        put_placed_row(sheet, filter, chart, entries, post)?;
    }
    Ok(())
}

/// Writes the names of the columns, where records are written.
fn put_head(out: &mut Rows) -> Result<(), AllocError>
    ensures { OnOk result (out.new ≡ added out.old (head_text out.old.csv spec.head)) }
{
    let names: [&[u8]; 13] = [
        b"place",
        b"day",
        b"desk",
        b"key",
        b"call",
        b"number",
        b"basis",
        b"year",
        b"fund",
        b"fund_name",
        b"account",
        b"account_name",
        b"amount",
    ];
    out.put_names(names.as_slice())
}

/// The records of posts of these entries that are asked for, below the names of the columns.
fn text_of_posts(
    layout: Layout,
    filter: PostFilter,
    chart: &Chart,
    entries: &[Entry],
    posts: &[PlacedPost],
) -> Result<Vec<u8>, AllocError>
    ensures { IfOk result (λ v. v.items ≡ spec.text_of layout.csv filter chart.now entries.now
        posts.now) }
{
    let mut sheet = blank_sheet(layout);
    put_head(&mut sheet.out)?;
    put_rows(&mut sheet, filter, chart, entries, posts)?;
    sheet.out.into_text()
}

/// Opens the book of the journal on a disk, as `cf_journal_book::open` does, with the posts of its
/// entries, oldest first and those on the fund basis before those on the government-wide one.
pub fn open_with_posts<D: Disk + Drop>(
    alloc: Global,
    disk: D,
) -> Result<(Book<D>, Vec<PlacedPost>), NotOpened<D>>
    ensures ok { IfOk result (λ x. OpensBook D.tells D.content D.is_image D.moment D.was_image
        D.faults disk x.0) }
    ensures posts { IfOk result (λ x. x.1.items ≡ spec.placed_in
        (all_posted x.0.plan x.0.entries)) }
    ensures err { IfErr result (λ e. OpensNone D.tells D.content D.is_image D.moment D.was_image
        D.faults disk e.disk e.why) }
{
    let mut gathered = Gathered {
        posts: Vec::new(alloc),
    };
    match open_watched(alloc, disk, &mut gathered) {
        Ok(book) => Ok((book, gathered.posts)),
        Err(refused) => Err(refused),
    }
}

/// Those of a book's posts that are asked for as records below a row of names: a record each, with
/// its entry's place, day, desk, key, call and number drawn, the basis, and the post's fiscal year,
/// fund, account and amount, debits above zero, in units of money.
pub fn posts_text<D: Disk + Drop>(
    layout: Layout,
    filter: PostFilter,
    book: &Book<D>,
    posts: &[PlacedPost],
) -> Result<Vec<u8>, AllocError>
    ensures { IfOk result (λ v. v.items ≡ spec.text_of layout.csv filter book.now.plan
        book.now.entries posts.now) }
{
    text_of_posts(layout, filter, book.chart(), book.entries(), posts)
}
