// The lines of the names of a list: of each entry, those of its parameters of the named type, in their order. Rests on crates marks, lookups, rows,
// partials, goal, rulefile, entries, lines, naming and writing.
#![tactic(auto)]

ghost use Rattle.std.specs.Prelude.{◌≡◌, [], map, ◌≤◌, ◌<◌, length, drop, eqb, Ok, Some};
ghost use Rattle.reach.specs.Base.{pick};
ghost use Rattle.reach.specs.Places.{type_at};
ghost use Rattle.writing.specs.Writing.{Puts};
ghost use Rattle.names.specs.NameList.{name_line};
ghost use Rattle.naming.specs.Letters.{letters, Spelt};
ghost use Rattle.rulefile.specs.Loading.{Loads};
ghost use Rattle.rows.specs.Values.{table_of};
ghost use Rattle.namelines.specs.Rows.{row_names, row_read, types_asked, Readable};
ghost use Rattle.namelines.specs.Lists.{list_names, Listed, FitsFile, PutsNames, WritesNames};

use entries::each_entry;
use lines::put_refusal;
use lookups::FieldTypes;
use marks::byte_or_zero;
use naming::put_name;
use outline::table::Tables;
use partials::value;
use reach::Refusal;
use rows::Values;
use rulefile::{Loaded, load};
use writing::Page;

// What is asked of the parameters: where their types stand in the file, and the type whose values are names.
#[derive(Clone, Copy)]
pub struct Asked {
    pub parameters: FieldTypes,
    pub named: usize,
}

// Writes the line of a parameter that stands at a place of the list, if its type is the named one.
fn put_parameter(page: &mut Page, t: usize, named: usize, list: &[u8], place: usize)
    requires { (length list.now ≤ 16777216) × (place ≤ length list.now) × (page.old.at < 576460752303423488) × (t ≡ named → Spelt list.now place) }
    ensures { Puts page.old (pick (eqb t named) (name_line (letters (drop place list.now))) []) page.new }
{
    if t == named {
        put_name(page, list, place);
    }
}

// Writes the lines of the names among the parameters that stand from a place of the list on. Each turn of the loop passes over one parameter.
fn put_entry(page: &mut Page, values: &Values, at: usize, asked: Asked)
    requires { let v = values.now in Readable v.rules.file.now v.rules.types.now (table_of v.least) v.list.now at asked × (page.old.at < 288230376151711744) }
    ensures { let v = values.now in
        let r = v.rules in Puts page.old (row_names (map (type_at r.file.now) r.types.now) asked.named (types_asked r.file.now asked) (row_read (map
        (type_at r.file.now) r.types.now) (types_asked r.file.now asked) v.list.now at)) page.new }
{
    let types = asked.parameters;
    let mut place = at;
    for field in types.at..types.at + types.count {
        let t = byte_or_zero(values.rules.file, field);
        put_parameter(page, t, asked.named, values.list, place);
        let Some(one) = value(values, place, t, 64) else {
            return;
        };
        place = one.next;
    }
}

// Writes the lines of the names of a list to an empty page, entry after entry.
fn put_entries(page: &mut Page, values: &Values, asked: Asked)
    requires { let v = values.now in (page.old.at ≡ 0) × Listed v.rules.file.now v.rules.types.now (table_of v.least) v.list.now asked }
    ensures { let v = values.now in
        let r = v.rules in Puts page.old (list_names (map (type_at r.file.now) r.types.now) asked.named (types_asked r.file.now asked) v.list.now)
        page.new }
{
    for entry in each_entry(values.list) {
        put_entry(page, values, entry.at + 6, asked);
    }
}

// The same of a file that was loaded, with the type that NA names. (The file and that type stand for themselves: the clauses speak of them, as those of
// `put_names` do.)
fn put_list<'a>(
    page: &mut Page,
    file: &'a [u8],
    loaded: &'a Loaded<'a>,
    named: usize,
    list: &'a [u8],
)
    requires { (page.old.at ≡ 0) × Loads file.now (Ok loaded.now) × (loaded.now.named ≡ Some named) × FitsFile file.now list.now }
    ensures { PutsNames file.now list.now page.old page.new }
{
    let rules = loaded.rules;
    let head = rules.head(loaded.goal.source);
    let asked = Asked {
        parameters: head.parameters,
        named,
    };
    let values = Values {
        rules,
        least: Some(&loaded.least.of),
        list,
    };
    put_entries(page, &values, asked);
}

// The same of any file: without NA there are no names. The file is accepted, as the list fits it.
fn put_names<'a>(page: &mut Page, file: &'a [u8], list: &'a [u8])
    requires { (page.old.at ≡ 0) × FitsFile file.now list.now }
    ensures { PutsNames file.now list.now page.old page.new }
{
    let mut tables = Tables::new();
    let Ok(loaded) = load(file, &mut tables) else {
        return;
    };
    if let Some(named) = loaded.named {
        put_list(page, file, &loaded, named, list);
    }
}

// Writes the names of the list of a search to the front of a slice, and refusal 12 behind them where it was cut short, and answers with the length of that
// text. A slice that is too short has as many bytes of the text as it holds.
pub fn list_names<'a>(file: &'a [u8], list: &'a [u8], full: bool, text: &mut [u8]) -> usize
    requires { FitsFile file.now list.now }
    ensures { WritesNames file.now list.now full text.old text.new result }
{
    let mut page = Page { text, at: 0 };
    put_names(&mut page, file, list);
    if full {
        put_refusal(&mut page, Refusal::ListFull);
    }
    page.at
}
