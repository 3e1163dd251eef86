ghost use Rattle.std.specs.Prelude.{◌≡◌, ℕ, List, [], ◌∷◌, ◌++◌, length, map, IfOk, OnOk};
ghost use Rattle.reading.specs.Named.{PlaceOf, Added, Distinct, Lacks};

use std::alloc::{AllocError, Global};
use std::collections::BTreeMap;
use std::marker::Model;

// What has a name.
pub trait Named: Drop {
    ghost name: { Self → List ℕ };

    fn name(&self) -> &str
        ensures { result.now ≡ name self.now };
}

impl Named for String {
    ghost use Rattle.std.specs.Prelude.{string_bytes};

    ghost name = { string_bytes };

    fn name(&self) -> &str {
        self.as_str()
    }
}

// Things in the order in which they were added, each under a name of its own, and a way to find
// their places: by a tree, since a table by hashes would need a seed from outside.
#[derive(Drop)]
pub struct Names<T: Named> {
    list: Vec<T>,
    places: BTreeMap<String, usize>,
}

impl<T: Named> Model for Names<T> {
    ghost use Rattle.std.specs.Prelude.{List, map};

    ghost Value = { List T };

    ghost use Rattle.reading.specs.Named.{Tells};

    ghost view = { λ n. n.list.items };

    ghost invariant = { λ n. Tells n.places (map T.name n.list.items) };
}

impl<T: Named> Names<T> {
    pub(crate) fn new(heap: Global) -> Names<T>
        ensures { result ≡ [] }
    {
        Names {
            list: Vec::new(heap),
            places: BTreeMap::new(heap),
        }
    }

    pub fn list(&self) -> &[T]
        ensures { result.now ≡ self.now }
    {
        self.list.as_slice()
    }

    pub fn into_list(self) -> Vec<T>
        ensures { result.items ≡ self }
    {
        let Names { list, .. } = self;
        list
    }

    // Where a name stands, if it is there.
    pub(crate) fn find(&self, name: &str) -> Option<usize>
        ensures place { PlaceOf (map T.name self.now) name.now result }
        ensures distinct { Distinct (map T.name self.now) }
    {
        self.places.get(name).copied()
    }

    // Adds a thing at the end, unless its name is there already: then its place is told.
    pub(crate) fn add(&mut self, heap: Global, item: T) -> Result<Option<usize>, AllocError>
        ensures added { IfOk result (λ there. Added T.name self.old self.new item there) }
        ensures distinct { OnOk result (Distinct (map T.name self.new)) }
    {
        if let Some(place) = self.find(item.name()) {
            return Ok(Some(place));
        }
        self.push(heap, item)?;
        Ok(None)
    }

    // Adds a thing at the end, whose name is not there, and tells its place: the tree is not asked again.
    pub(crate) fn push(&mut self, heap: Global, item: T) -> Result<usize, AllocError>
        requires { Lacks (map T.name self.old) (T.name item) }
        ensures added { IfOk result (λ place. (place ≡ length self.old) × (self.new ≡ self.old ++ item ∷ [])) }
        ensures distinct { OnOk result (Distinct (map T.name self.new)) }
    {
        let name = String::from_str(heap, item.name())?;
        let place = self.list.len();
        self.list.push(item)?;
        if let Err(e) = self.places.insert(name, place) {
            self.list.truncate(place);
            return Err(AllocError::from(e));
        }
        Ok(place)
    }
}
