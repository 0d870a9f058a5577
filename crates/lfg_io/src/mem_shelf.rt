ghost use Rattle.std.specs.Prelude.{◌≡◌, ◌≢◌, ◌≤◌, ◌++◌, [], Some, None, Err, IsSomeAnd, IfOk, OnOk, OnErr, MatchOption, map, take};
ghost use Rattle.std.specs.List.{Contains};
ghost use Rattle.std.specs.FinMap as finite;
ghost use Rattle.lfg_io.specs.Counts.{raised, Rose};
ghost use Rattle.lfg_io.specs.MemShelf.{files_of, found, sure_names, told};
ghost use Rattle.lfg_io.specs.Shelf.{HasFile, IsLoaded};

use crate::counts::raise;
use crate::shelf::{Shelf, ShelfFault};
use lfg_terms::Name;
use std::alloc::{AllocError, Global};
use std::marker::Model;

/// A shelf in memory, which fails the listed calls.
///
/// Contracts see its files with their names, the list of failing calls, the counts of calls and of
/// faults, and the name of the last load that failed.
#[derive(Drop)]
pub struct MemShelf {
    files: Vec<(Name, Vec<u8>)>,
    fails: Vec<u64>,
    calls: u64,
    faults: u64,
    last_failed: String,
}

impl Model for MemShelf {
    ghost use Rattle.std.specs.Prelude.{string_bytes};
    ghost use Rattle.lfg_io.specs.MemShelf.{MemShelfState, told};

    ghost Value = { MemShelfState };

    ghost view = { λ s. record { files = told s.files.items; fails = s.fails.items; calls = s.calls; faults = s.faults; last_failed = string_bytes s.last_failed } };
}

impl MemShelf {
    /// A shelf of these files, which fails the calls in the list, counted from 1.
    /// Of two files with one name the first counts.
    ///
    /// # Errors
    ///
    /// Only for want of memory.
    pub fn new(
        alloc: Global,
        files: Vec<(Name, Vec<u8>)>,
        fails: Vec<u64>,
    ) -> Result<MemShelf, AllocError>
        ensures made { IfOk result (λ shelf. shelf ≡ record { files = told files.items; fails = fails.items; calls = 0; faults = 0; last_failed = [] }) }
        ensures files { IfOk result (λ shelf. ⟦<MemShelf as Shelf>⟧.files shelf ≡ Some (files_of (told files.items))) }
        ensures sure { fails.items ≡ [] → IfOk result (λ shelf. ⟦<MemShelf as Shelf>⟧.sure shelf ≡ map (λ file. file.0) (told files.items)) }
        ensures unsure { fails.items ≢ [] → IfOk result (λ shelf. ⟦<MemShelf as Shelf>⟧.sure shelf ≡ []) }
    {
        Ok(MemShelf {
            files,
            fails,
            calls: 0,
            faults: 0,
            last_failed: String::new(alloc),
        })
    }

    /// How many calls have failed. Takes no memory.
    pub fn faults(&self) -> u64
        ensures { result ≡ self.now.faults }
    {
        self.faults
    }

    /// The name of the last load that failed, and the empty name before the first. Takes no memory.
    pub fn last_failed(&self) -> &str
        ensures { result.now ≡ self.now.last_failed }
    {
        self.last_failed.as_str()
    }

    /// The file of that name, the first if there are several.
    fn find(&self, name: &str) -> Option<&Vec<u8>>
        ensures { MatchOption result (finite.get (files_of self.now.files) name.now ≡ None) (λ bytes. finite.get (files_of self.now.files) name.now ≡ Some bytes.now.items) }
    {
        for (known, bytes) in &self.files {
            if name == known.text() {
                return Some(bytes);
            }
        }
        None
    }
}

impl Shelf for MemShelf {
    ghost files = { λ shelf. Some (files_of shelf.files) };

    ghost sure = { λ shelf. sure_names shelf.fails shelf.files };

    ghost faults = { λ shelf. shelf.faults };

    ghost last_failed = { λ shelf. shelf.last_failed };

    fn load(
        &mut self,
        alloc: Global,
        name: &str,
        limit: usize,
        into: &mut Vec<u8>,
    ) -> Result<(), ShelfFault>
        ensures there { OnOk result (HasFile (Some (files_of self.old.files)) name.now) }
        ensures loaded { OnOk result (IsLoaded (Some (files_of self.old.files)) name.now limit into.old.items into.new.items) }
        ensures refused { OnErr result (into.new.items ≡ into.old.items) }
        ensures sure { Contains (sure_names self.old.fails self.old.files) name.now → result ≢ Err ShelfFault.Failed }
        ensures later { self.old.faults ≤ self.new.faults }
        ensures rose { result ≡ Err ShelfFault.Failed → Rose self.old.faults self.new.faults }
        ensures faults_kept { result ≢ Err ShelfFault.Failed → self.new.faults ≡ self.old.faults }
        ensures named { result ≡ Err ShelfFault.Failed → self.new.last_failed ≡ name.now }
        ensures last_failed_kept { result ≢ Err ShelfFault.Failed → self.new.last_failed ≡ self.old.last_failed }
        ensures files_kept { self.new.files ≡ self.old.files }
        ensures sure_kept { sure_names self.new.fails self.new.files ≡ sure_names self.old.fails self.old.files }

        // Each call counts. A listed one fails, and any other exactly where the file is not there.
        ensures calls { self.new.calls ≡ raised self.old.calls }
        ensures found { OnOk result (IsSomeAnd (found self.old name.now) (λ bytes. into.new.items ≡ into.old.items ++ take limit bytes)) }
        ensures failed { result ≡ Err ShelfFault.Failed → found self.old name.now ≡ None }
        ensures faults { result ≡ Err ShelfFault.Failed → self.new.faults ≡ raised self.old.faults }
        ensures fails_kept { self.new.fails ≡ self.old.fails }
    {
        let call = raise(self.calls);
        self.calls = call;
        let Ok(failed) = String::from_str(alloc, name) else {
            return Err(ShelfFault::Memory);
        };
        let listed = self.fails.contains(&call);
        match self.find(name) {
            Some(bytes) if !listed => {
                let part = &bytes.as_slice()[..limit.min(bytes.len())];
                match into.extend_from_slice(part) {
                    Ok(()) => Ok(()),
                    Err(_) => Err(ShelfFault::Memory),
                }
            }
            _ => {
                self.faults = raise(self.faults);
                self.last_failed = failed;
                Err(ShelfFault::Failed)
            }
        }
    }
}

#[cfg(test)]
mod tests {
    use super::*;
    use std::test::Fail;

    #[test]
    fn loads_the_first_of_a_name_and_fails_at_the_listed_calls(
        rt: HostRuntime,
    ) -> Result<(), Fail> {
        let mut files = Vec::new(rt.alloc());
        for (name, text) in [("g", "rules"), ("g", "other"), ("s", "the man")] {
            let bytes = text.as_bytes().to_vec(rt.alloc())?;
            files.push((Name::new(rt.alloc(), name)?, bytes))?;
        }
        let mut shelf = MemShelf::new(rt.alloc(), files, vec![in rt.alloc(); 3]?)?;
        let failed = Err(ShelfFault::Failed);
        let calls = [
            ("g", 4, Ok(()), "rule", ""),
            ("s", 9, Ok(()), "rulethe man", ""),
            ("g", 9, failed, "rulethe man", "g"),
            ("x", 9, failed, "rulethe man", "x"),
            ("g", 9, Ok(()), "rulethe manrules", "x"),
        ];
        let mut text = Vec::new(rt.alloc());
        for (name, limit, answer, loaded, last_failed) in calls {
            assert_eq!(rt;
                shelf.load(rt.alloc(), name, limit, &mut text),
                answer,
                "loading {name}"
            );
            assert_eq!(rt; text.as_slice(), loaded.as_bytes(), "after {name}");
            assert_eq!(rt; shelf.last_failed(), last_failed, "after {name}");
        }
        assert_eq!(rt; shelf.faults(), 2);
        Ok(())
    }
}
