//! A file with the texts of its items, and edits of it.
ghost use Rattle.std.specs.Prelude.{◌≡◌, ◌≤◌, ◌<◌, Some, length, map, slice_get, IfErr, IfOk};
ghost use Rattle.lay_code.specs.Out.{out};
ghost use Rattle.lay_files.specs.Readings.{ReadsOnlyTo};
ghost use Rattle.lay_items.specs.Edits.{Inserts, IsUnread, Replaces, without_item};
ghost use Rattle.lay_items.specs.Kept.{Keeps};
ghost use Rattle.lay_items.specs.alone.Outputs.{head_text, item_text};

use crate::lists::{insert_both, remove_both, replace_both};
use crate::printing::{head_of, outputs_of, push_all};
use crate::reading::{EditError, Laid, one_item};
use lay_code::File;
use lay_files::{FileError, read_bytes};
use lay_text::{FormatError, List, NoMemory, Text};
use std::alloc::Global;

/// A file with the text of its beginning, and the text of each item.
#[derive(Drop)]
pub struct Items {
    alloc: Global,
    file: File,
    head: Text,
    outputs: List<Text>,
    // The texts are those of the file.
    ghost keeps: { Keeps file head outputs },
}

impl Items {
    /// Parses the bytes as a file, and lays it out.
    pub fn from_bytes(alloc: Global, bytes: &[u8]) -> Result<Items, FormatError>
        ensures read { IfOk result (λ items. ReadsOnlyTo bytes.now items.file) }
        ensures unread { IfErr result (λ why. IsUnread bytes.now why) }
    {
        match read_bytes(alloc, bytes) {
            Ok(file) => match Items::from_file(alloc, file) {
                Ok(items) => Ok(items),
                Err(NoMemory) => Err(FormatError::NoMemory),
            },
            Err(FileError::Refused { refusal, .. }) => Err(FormatError::Refused(refusal)),
            Err(FileError::NoMemory) => Err(FormatError::NoMemory),
        }
    }

    /// The file with the texts of its parts.
    #[tactic(auto, using(crate::proofs::KeptLemmas::kept))]
    fn from_file(alloc: Global, file: File) -> Result<Items, NoMemory>
        ensures { IfOk result (λ items. items.file ≡ file) }
    {
        let mut file = file;
        let head = head_of(alloc, &mut file)?;
        let outputs = outputs_of(alloc, file.items.as_slice())?;
        Ok(Items {
            alloc,
            file,
            head,
            outputs,
        })
    }

    /// The file.
    pub fn file(&self) -> &File
        ensures { result.now ≡ self.now.file }
    {
        &self.file
    }

    /// How many items the file has.
    pub fn len(&self) -> usize
        ensures { result ≡ length self.now.file.items }
    {
        self.file.items.as_slice().len()
    }

    /// The text of the beginning of the file: its shebang line, if it has one, and its inner
    /// attributes.
    pub fn head(&self) -> &[u8]
        ensures { result.now ≡ head_text self.now.file }
    {
        self.head.as_bytes()
    }

    /// The text of the item with this index.
    pub fn output(&self, index: usize) -> &[u8]
        requires { index < length self.now.file.items }
        ensures { slice_get (map item_text self.now.file.items) index ≡ Some result.now }
    {
        self.outputs.as_slice()[index].as_bytes()
    }

    /// The text of the file: that of its beginning, and then that of each item, in order.
    pub fn whole(&self) -> Result<Text, NoMemory>
        ensures { IfOk result (λ text. text ≡ out self.now.file) }
    {
        let mut whole = Text::from_bytes(self.alloc, self.head.as_bytes())?;
        push_all(&mut whole, self.outputs.as_slice())?;
        Ok(whole)
    }

    /// Inserts the item that a text spells, so that it has this index. An error changes nothing.
    pub fn insert(&mut self, index: usize, text: &[u8]) -> Result<(), EditError>
        requires { index ≤ length self.old.file.items }
        ensures { Inserts self.old.file index text.now result self.new.file }
    {
        let alloc = self.alloc;
        let Laid { item, output } = one_item(alloc, text)?;
        let items = &mut self.file.items;
        let outputs = &mut self.outputs;
        match insert_both(alloc, items, outputs, index, item, output) {
            Ok(()) => Ok(()),
            Err(NoMemory) => Err(EditError::NoMemory),
        }
    }

    /// Replaces the item with this index by the one that a text spells. An error changes nothing.
    pub fn replace(&mut self, index: usize, text: &[u8]) -> Result<(), EditError>
        requires { index < length self.old.file.items }
        ensures { Replaces self.old.file index text.now result self.new.file }
    {
        let alloc = self.alloc;
        let Laid { item, output } = one_item(alloc, text)?;
        let items = &mut self.file.items;
        let outputs = &mut self.outputs;
        replace_both(alloc, items, outputs, index, item, output);
        Ok(())
    }

    /// Removes the item with this index. It doesn't allocate.
    pub fn remove(&mut self, index: usize)
        requires { index < length self.old.file.items }
        ensures { self.new.file ≡ without_item self.old.file index }
    {
        remove_both(self.alloc, &mut self.file.items, &mut self.outputs, index);
    }
}
