//! Lists of collections and indexes.
ghost use Rattle.std.specs.Prelude.{◌≡◌, ℕ, List, [], false, map};
ghost use Rattle.mg_server.specs.Commands.{query_by};
ghost use Rattle.mg_link.specs.Namespace.{space};
ghost use Rattle.mg_server.specs.Query.{Stage, of_database, of_indexes};
ghost use Rattle.mg_server.specs.Rules.{find};
ghost use Rattle.mg_server.specs.State.{State, AreInOrder};
ghost use Rattle.mg_query.specs.Querying.{doing, held_stage};
ghost use Rattle.mg_store.specs.Contents.{Represents, Settles};

use crate::content::Content;
use crate::cursor::Found;
use crate::perform::Answer;
use mg_link::Namespace;
use mg_query::{
    Plan, Refusal, Stop, collections_listed, further, indexes_listed, listing_namespace,
};
use std::alloc::Global;

impl Content {
    pub(crate) fn answer_list_collections(
        &self,
        alloc: Global,
        db: &str,
        plan: &Plan,
    ) -> Result<Answer, Stop>
        ensures { (s : State) (given : ℕ) (stages : List Stage) → Represents self.now s given → AreInOrder s.collections → map held_stage plan.now.stages.items ≡ map doing stages → Settles s given (find (query_by (of_database db.now) plan.now.single stages plan.now.batch_size)) result }
    {
        let listed = collections_listed(alloc, &self.collections, db)?;
        let documents = further(alloc, plan.stages.as_slice(), listed)?;
        let ns = listing_namespace(alloc, db)?;
        let found = Found { ns, documents };
        self.answer_found(alloc, found, plan.single, plan.batch_size)
    }

    pub(crate) fn answer_list_indexes(
        &self,
        alloc: Global,
        ns: Namespace,
        batch_size: Option<u64>,
    ) -> Result<Answer, Stop>
        ensures { (s : State) (given : ℕ) → Represents self.now s given → Settles s given (find (query_by (of_indexes (space ns)) false [] batch_size)) result }
    {
        let Some(collection) = self.collections.get(&ns) else {
            return Err(Stop::Refused(Refusal::NoSuchCollection));
        };
        let documents = indexes_listed(alloc, collection.indexes.as_slice())?;
        let found = Found { ns, documents };
        self.answer_found(alloc, found, false, batch_size)
    }
}
