// The opcode table as a whole, and one place of it. Both read the rows of the three pages.
ghost use Rattle.std.specs.Prelude.{◌≡◌};
ghost use Rattle.opcodes.specs.Manual.{entry_of};
ghost use Rattle.pages.specs.Table.{places_of, table_of};

use super::{eleven, plain, ten};
use opcodes::{Entry, Page};

// What a byte on a page stands for.
pub fn lookup(page: Page, code: u8) -> Option<Entry>
    ensures { result ≡ entry_of page code }
{
    match page {
        Page::Plain => plain::place(code),
        Page::Ten => ten::place(code),
        Page::Eleven => eleven::place(code),
    }
}

fn places_of(page: Page) -> [Option<Entry>; 256]
    ensures { result ≡ places_of page }
{
    let mut places = [None; 256];
    for (code, place) in places.iter_mut().enumerate() {
        *place = lookup(page, code as u8);
    }
    places
}

// The opcode table: its three pages, plain, after 10 and after 11.
pub fn all() -> [[Option<Entry>; 256]; 3]
    ensures { result ≡ table_of }
{
    [
        places_of(Page::Plain),
        places_of(Page::Ten),
        places_of(Page::Eleven),
    ]
}
