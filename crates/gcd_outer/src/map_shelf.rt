// A shelf in memory, which tells what it holds.
ghost use Rattle.std.specs.Prelude.{◌≡◌, ◌≢◌, ◌++◌, ◌∷◌, [], List, ℕ, Some, None, option_map, true, OnOk, OnErr};
ghost use Rattle.gcd_outer.specs.Pages.{content_of};

use crate::calls::Calls;
use crate::shelf::{LoadFault, Shelf};
use std::alloc::{AllocError, Global};
use std::collections::BTreeMap;

/// A shelf in memory. It tells what it holds. It fails just in the loads that `fail` names.
#[derive(Drop)]
pub struct MapShelf {
    alloc: Global,
    pages: BTreeMap<String, Vec<u8>>,
    loads: Calls,
    faults: u64,
}

impl MapShelf {
    ghost use Rattle.gcd_outer.specs.InMemory.{failing_loads, shelf_state};

    /// An empty shelf, which has not been asked for anything.
    pub fn new(alloc: Global) -> Self
        ensures empty { (name : List ℕ) → (shelf_state result).content name ≡ None }
        ensures loads { (shelf_state result).loads ≡ 0 }
        ensures faults { (shelf_state result).faults ≡ 0 }
        ensures failing { failing_loads result ≡ [] }
    {
        MapShelf {
            alloc,
            pages: BTreeMap::new(alloc),
            loads: Calls::new(alloc),
            faults: 0,
        }
    }

    /// Puts these bytes under the name, in place of what stood there. Being out of memory leaves the shelf
    /// as it was.
    pub fn put(&mut self, name: &str, bytes: &[u8]) -> Result<(), AllocError>
        ensures put { OnOk result ((shelf_state self.new).content name.now ≡ Some bytes.now) }
        ensures others { (other : List ℕ) → other ≢ name.now
            → (shelf_state self.new).content other ≡ (shelf_state self.old).content other }
        ensures wanting { OnErr result ((shelf_state self.new).content ≡ (shelf_state self.old).content) }
        ensures loads { (shelf_state self.new).loads ≡ (shelf_state self.old).loads }
        ensures faults { (shelf_state self.new).faults ≡ (shelf_state self.old).faults }
        ensures failing { failing_loads self.new ≡ failing_loads self.old }
    {
        let name = String::from_str(self.alloc, name)?;
        let bytes = bytes.to_vec(self.alloc)?;
        self.pages.insert(name, bytes)?;
        Ok(())
    }

    /// The load of this number, counted from 0, is to fail; nothing else changes. Being out of memory leaves
    /// the shelf as it was.
    pub fn fail(&mut self, load: u64) -> Result<(), AllocError>
        ensures content { (shelf_state self.new).content ≡ (shelf_state self.old).content }
        ensures loads { (shelf_state self.new).loads ≡ (shelf_state self.old).loads }
        ensures faults { (shelf_state self.new).faults ≡ (shelf_state self.old).faults }
        ensures ok { OnOk result (failing_loads self.new ≡ failing_loads self.old ++ load ∷ []) }
        ensures wanting { OnErr result (failing_loads self.new ≡ failing_loads self.old) }
    {
        self.loads.fail(load)
    }
}

// A function of its own, so that the load below knows what an absent name means.
fn page_of<'a>(pages: &'a BTreeMap<String, Vec<u8>>, name: &str) -> Option<&'a [u8]>
    ensures { option_map (λ b. b.now) result ≡ content_of pages.now name.now }
{
    let page = pages.get(name)?;
    Some(page.as_slice())
}

impl Shelf for MapShelf {
    ghost use Rattle.std.specs.Prelude.{◌≡◌, ◌≤◌, ◌<◌, List, ℕ, true, Some, None, [], length, Contains, OnOk, OnErr, IsErrOf};
    ghost use Rattle.gcd_outer.specs.InMemory.{failing_loads, shelf_state};
    ghost use Rattle.gcd_outer.specs.Outside.{Rises, next_count};

    ghost tells = { true };

    ghost state = { shelf_state };

    // What each shelf promises, and then: it fails just where that is planned, and counts just that.
    fn load(&mut self, name: &str, most: usize, into: &mut Vec<u8>) -> Result<(), LoadFault>
        ensures fits { OnOk result (length into.new.items ≤ most) }
        ensures content { OnOk result ((shelf_state self.old).content name.now ≡ Some into.new.items) }
        ensures missing { IsErrOf result LoadFault.Missing → (shelf_state self.old).content name.now ≡ None }
        ensures seen { (n : ℕ) → IsErrOf result (LoadFault.TooLong n) → most < n }
        ensures longer { (n : ℕ) → IsErrOf result (LoadFault.TooLong n)
            → (bytes : List ℕ) × ((shelf_state self.old).content name.now ≡ Some bytes) × (length bytes ≡ n) }
        ensures empty { OnErr result (into.new.items ≡ []) }
        ensures failed { IsErrOf result LoadFault.Failed
            → Rises (shelf_state self.old).faults (shelf_state self.new).faults }
        ensures faults { (shelf_state self.old).faults ≤ (shelf_state self.new).faults }
        ensures same { (shelf_state self.new).content ≡ (shelf_state self.old).content }
        ensures loads { (shelf_state self.new).loads ≡ next_count (shelf_state self.old).loads }

        ensures planned { Contains (failing_loads self.old) (shelf_state self.old).loads
            → IsErrOf result LoadFault.Failed }
        ensures only_planned { IsErrOf result LoadFault.Failed
            → Contains (failing_loads self.old) (shelf_state self.old).loads }
        ensures one_fault { IsErrOf result LoadFault.Failed → (shelf_state self.new).faults
            ≡ next_count (shelf_state self.old).faults }
        ensures no_fault { (IsErrOf result LoadFault.Failed → ⊥)
            → (shelf_state self.new).faults ≡ (shelf_state self.old).faults }
        ensures failing { failing_loads self.new ≡ failing_loads self.old }
    {
        into.clear();
        if self.loads.next() {
            self.faults = self.faults.saturating_add(1);
            return Err(LoadFault::Failed);
        }
        match page_of(&self.pages, name) {
            None => Err(LoadFault::Missing),
            Some(bytes) => {
                if bytes.len() > most {
                    return Err(LoadFault::TooLong(bytes.len()));
                }
                if into.extend_from_slice(bytes).is_err() {
                    return Err(LoadFault::Memory);
                }
                Ok(())
            }
        }
    }
}
