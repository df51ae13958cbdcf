//! Values of a document, lent to be changed.
ghost use Rattle.std.specs.Prelude.{◌≡◌, option_map};
ghost use Rattle.std.specs.Borrow.{sem};
ghost use Rattle.mg_bson.specs.Find.{get};
ghost use Rattle.mg_bson.specs.Lends.{LendsValue};
ghost use Rattle.mg_bson.specs.View.{tree};

use crate::tree::{Bson, Document, place_of};

impl Document {
    /// The first value of the name, to be changed in its place.
    ///
    ///     if let Some(value) = document.get_mut("n") {
    ///         *value = Bson::from(2);
    ///     }
    pub fn get_mut(&mut self, name: &str) -> Option<&mut Bson>
        ensures* writes_back { sem 𝓛 (LendsValue self.entry name.now result) }
        ensures value { option_map (λ v. tree v.now) result ≡ get name.now self.old }
    {
        let i = place_of(&self.fields, name)?;
        let field = &mut self.fields[i];
        Some(&mut field.value)
    }
}
