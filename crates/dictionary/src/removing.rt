// A row that goes, with its bytes.
ghost use Rattle.std.specs.Prelude.{◌≡◌, ◌≤◌, length};
ghost use Rattle.std.specs.List.{remove as without_place};
ghost use Rattle.machine.specs.Dictionary.{without_row};
ghost use Rattle.dictionary.specs.Meant.{rows_in};
ghost use Rattle.dictionary.specs.Finding.{RowAt};
ghost use Rattle.dictionary.specs.Editing.{RowsEdited};

use crate::dictionary::Dictionary;
use crate::finding::Place;
use area::remove;

impl Dictionary {
    fn remove_row(&mut self, store: &mut [u8], place: Place)
        requires whole { self.old.used ≤ length store.old }
        requires place { RowAt self.old place }
        ensures rows { rows_in self.new store.new ≡ without_place (rows_in self.old store.old) place.index }
        ensures others { RowsEdited self.old self.new store.old store.new }
    {
        let start = place.start;
        let size = place.row.size();
        let used = self.used;
        self.used = remove(store, used, start..start + size);
        self.row_bytes -= size;
        self.rows.remove(place.index);
    }

    // The row of a name goes, if there is one.
    pub(crate) fn remove_named(&mut self, store: &mut [u8], name: &[u8])
        requires { self.old.used ≤ length store.old }
        ensures rows { rows_in self.new store.new ≡ without_row name.now (rows_in self.old store.old) }
        ensures others { RowsEdited self.old self.new store.old store.new }
    {
        if let Some(place) = self.find(store, name) {
            self.remove_row(store, place);
        }
    }
}
