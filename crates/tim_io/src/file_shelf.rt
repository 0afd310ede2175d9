//! The real files.
ghost use Rattle.std.specs.Prelude.{◌≡◌, ℕ, ◌<◌, ◌≤◌, List, Ok, IfOk, IfErr, IsErrOf, IsSome, OnErr, OnOk, length};
ghost use Rattle.std.specs.BTreeMap.{get_by_text};
ghost use Rattle.tim_io.specs.Causes.{one_more, Rose};
ghost use Rattle.tim_io.specs.FileShelf.{untold, faults_in, file_in, ReadsOn};
ghost use Rattle.tim_io.specs.Shelves.{Takes, OthersStay};

use crate::shelf::{Shelf, TakeError};
use crate::system::read_answer;
use std::alloc::{AllocError, Global};
use std::collections::BTreeMap;
use std::io::Read;
use std::rt::Files;
use std::{fs, io};

/// A file that was asked for, once it is open, and how often it has failed.
#[derive(Drop)]
struct Opened<F> {
    file: Option<F>,
    faults: u64,
}

impl<F: Read + Drop> Opened<F> {
    /// Reads on, and opens the file where it is not open yet.
    fn read<R: Files<File = F>>(&mut self, rt: &R, name: &str, buf: &mut [u8]) -> io::Result<usize>
        ensures bound { IfOk result (λ n. n ≤ length buf.new) }
        ensures reads { ReadsOn F.remaining self.old.file self.new.file result buf.new }
        ensures faults { self.new.faults ≡ self.old.faults }
    {
        let mut file = match self.file.take() {
            Some(file) => file,
            None => fs::open(rt, name)?,
        };
        let answer = file.read(buf);
        self.file = Some(file);
        answer
    }

    /// Reads on, and counts a fault.
    fn take<R: Files<File = F>>(
        &mut self,
        rt: &R,
        name: &str,
        buf: &mut [u8],
    ) -> Result<usize, TakeError>
        ensures bound { IfOk result (λ n. n ≤ length buf.new) }
        ensures reads { ReadsOn F.remaining self.old.file self.new.file result buf.new }
        ensures later { self.old.faults ≤ self.new.faults }
        ensures failed { IfErr result (λ error. error ≡ TakeError.Failed) }
        ensures fault { OnErr result (self.new.faults ≡ one_more self.old.faults) }
        ensures no_fault { OnOk result (self.new.faults ≡ self.old.faults) }
    {
        let answer = self.read(rt, name, buf);
        read_answer(answer, &mut self.faults)
    }
}

/// The files of the system, each opened when it is first asked for and kept by its name, with that name's count of
/// faults. It does not tell what a file has left.
#[derive(Drop)]
pub struct FileShelf<'a, R: Files> {
    rt: &'a R,
    alloc: Global,
    files: BTreeMap<String, Opened<R::File>>,
}

impl<'a, R: Files> FileShelf<'a, R> {
    /// The files of `rt`, none of them open yet.
    pub fn new(rt: &'a R, alloc: Global) -> FileShelf<'a, R>
        ensures { (name : List ℕ) → ⟦<FileShelf<'a, R> as Shelf>⟧.faults result name ≡ 0 }
    {
        FileShelf {
            rt,
            alloc,
            files: BTreeMap::new(alloc),
        }
    }

    /// Keeps the file of a name that was not asked for yet, so that no byte is lost on running out of memory later. It is
    /// not opened here. On running out of memory nothing changes.
    #[tactic(auto, using(std::proofs::lemmas::Map::Text::text_keys))]
    fn keep(&mut self, name: &str) -> Result<(), AllocError>
        ensures kept { OnOk result (IsSome (get_by_text self.new.files name.now)) }
        ensures files { (other : List ℕ) → file_in self.new.files other ≡ file_in self.old.files other }
        ensures faults { (other : List ℕ) → faults_in self.new.files other ≡ faults_in self.old.files other }
    {
        if self.files.contains_key(name) {
            return Ok(());
        }
        let key = String::from_str(self.alloc, name)?;
        let unread = Opened {
            file: None,
            faults: 0,
        };
        self.files.insert(key, unread)?;
        Ok(())
    }
}

impl<R: Files> Shelf for FileShelf<'_, R> {
    ghost left = { λ shelf. untold };

    ghost faults = { λ shelf. faults_in shelf.files };

    /// A file that cannot be opened or read fails. `Memory` comes where there is no room to keep the file.
    fn take(&mut self, name: &str, buf: &mut [u8]) -> Result<usize, TakeError>
        ensures bound { IfOk result (λ n. n ≤ length buf.new) }
        ensures takes { Takes (untold name.now) (untold name.now) result buf.new }
        ensures empty { length buf.new ≡ 0 →
            (result ≡ Ok 0) × (untold name.now ≡ untold name.now)
            × (faults_in self.new.files name.now ≡ faults_in self.old.files name.now) }
        ensures later { faults_in self.old.files name.now ≤ faults_in self.new.files name.now }
        ensures cause { IsErrOf result TakeError.Failed →
            Rose (faults_in self.old.files name.now) (faults_in self.new.files name.now) }
        ensures other_faults { OthersStay (faults_in self.old.files) (faults_in self.new.files) name.now }

        // Beside the trait's clauses, for the files of any runtime: the answer is what the file's own reads gave, as far as
        // its type tells what it has left. So a call that failed is never answered as the end.
        ensures reads { 0 < length buf.new → ReadsOn ⟦<R::File as Read>⟧.remaining
            (file_in self.old.files name.now) (file_in self.new.files name.now) result buf.new }
        ensures empty_file { length buf.new ≡ 0 → file_in self.new.files name.now ≡ file_in self.old.files name.now }
        ensures other_files { OthersStay (file_in self.old.files) (file_in self.new.files) name.now }
        ensures fault { IsErrOf result TakeError.Failed →
            faults_in self.new.files name.now ≡ one_more (faults_in self.old.files name.now) }
        ensures memory { IsErrOf result TakeError.Memory →
            faults_in self.new.files name.now ≡ faults_in self.old.files name.now }
        ensures no_fault { OnOk result (faults_in self.new.files name.now ≡ faults_in self.old.files name.now) }
    {
        if buf.is_empty() {
            return Ok(0);
        }
        if self.keep(name).is_err() {
            return Err(TakeError::Memory);
        }
        match self.files.get_mut(name) {
            Some(opened) => opened.take(self.rt, name, buf),
            None => Err(TakeError::Memory),
        }
    }
}
