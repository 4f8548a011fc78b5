//! The places of words, linked from the last to the first.
ghost use Rattle.std.specs.Prelude.{◌≡◌, ◌+◌, ◌<◌, ◌^◌, ℕ, List, ◌++◌, take, length, IfOk, OnOk};
ghost use Rattle.word_index.specs.Links.{IsChain, IsLinked, AddsLinked, bumped};

use crate::join::number_of;
use crate::rows::Place;
use std::alloc::AllocError;

/// A place of a word, and after how many links the place before it ends. If there is none, that is 0.
#[derive(Clone, Copy)]
pub struct Link {
    pub place: Place,
    pub earlier: u32,
}

/// The link of a word after one more occurrence in the file of this number. The last is put among the links, if it is of another file.
pub fn next_link(
    last: Link,
    links: &mut Vec<Link>,
    path: u32,
    line: u32,
) -> Result<Link, AllocError>
    requires { last.place.path ≡ path → last.place.count + 1 < 2 ^ 32 }
    ensures kept { (n : ℕ) (ps : List Place) → IsChain links.old.items n ps → IsChain links.new.items n ps }
    ensures next { IfOk result (λ l. (ps : List Place) → IsLinked links.old.items last ps
        → IsLinked links.new.items l (bumped path line ps)) }
{
    if last.place.path == path {
        let place = Place {
            path,
            count: last.place.count + 1,
            line: last.place.line.min(line),
        };
        return Ok(Link {
            place,
            earlier: last.earlier,
        });
    }
    links.push(last)?;
    let earlier = number_of(links.len())?;
    let place = Place {
        path,
        count: 1,
        line,
    };
    Ok(Link { place, earlier })
}

/// Adds the place of a link and those before it.
pub fn add_linked(out: &mut Vec<Place>, last: Link, links: &[Link]) -> Result<(), AllocError>
    requires { (ps : List Place) × IsLinked links.now last ps }
    ensures ok { OnOk result (AddsLinked links.now last out.old.items out.new.items) }
    ensures kept { take (length out.old.items) out.new.items ≡ out.old.items }
{
    out.push(last.place)?;
    let mut n = last.earlier as usize;
    while n > 0 {
        let link = links[n - 1];
        out.push(link.place)?;
        n = link.earlier as usize;
    }
    Ok(())
}
