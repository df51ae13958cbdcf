use super::{failed, json_value, owned, printed, shown, written};
use crate::parted;
use mg_link::{Acknowledgment, ReadConcernLevel, ReadPreference};
use mg_options::{
    CollationAlternate, CollationCaseFirst, CollationMaxVariable, CollationStrength, CommitQuorum,
    FullDocumentBeforeChangeType, FullDocumentType, ReturnDocument,
};
use mg_records::{ChangeNamespaceType, OperationType};
use std::alloc::Global;
use std::process::Abort;

// Each row is a list of words, a word, and what it is read as: its own text where the list has it or keeps it.
pub(super) const ROWS: &str = r#"word strength 1~1
word strength 0~invalid collation strength: 0
word case upper~upper
word case lower~lower
word case off~off
word case Off~invalid CollationCaseFirst: Off
word alternate non-ignorable~non-ignorable
word alternate nonIgnorable~invalid collation alternate: nonIgnorable
word variable punct~punct
word variable space~space
word variable x~invalid collation max variable: x
word return after~true
word return Before~false
word return x~Unknown return document value: x
word preference primary~primary
word preference primaryPreferred~primaryPreferred
word preference secondary~secondary
word preference secondaryPreferred~secondaryPreferred
word preference nearest~nearest
word preference Nearest~none
word level local~local
word level majority~majority
word level linearizable~linearizable
word level available~available
word level snapshot~snapshot
word level Local~other Local
word full updateLookup~updateLookup
word full whenAvailable~whenAvailable
word full required~required
word full off~other off
word before whenAvailable~whenAvailable
word before required~required
word before off~off
word before updateLookup~other updateLookup
word w majority~majority
word w dc1~other dc1
word operation insert~insert
word operation update~update
word operation replace~replace
word operation delete~delete
word operation drop~drop
word operation rename~rename
word operation dropDatabase~dropDatabase
word operation invalidate~invalidate
word operation create~other create
word type Collection~Collection
word type Timeseries~Timeseries
word type View~View
word type view~other view
word quorum "votingMembers"~votingMembers
word quorum "majority"~majority
word quorum "all"~other all
word quorum 4294967295~4294967295
word quorum 4294967296~number out of range
word quorum -1~number out of range
word quorum true~number out of range
word strength 5~5
word strength 6~invalid collation strength: 6
word alternate shifted~shifted
word return AFTER~true"#;

// The word of a value, and whether its list lacks the word.
fn listed(rt: &impl Abort, alloc: Global, word: &str, is_other: bool) -> String {
    let other = if is_other { "other " } else { "" };
    written(rt, format!(in alloc; "{other}{word}"))
}

// A word of a list that keeps others.
fn kept(rt: &impl Abort, alloc: Global, list: &str, word: &str) -> String {
    match list {
        "level" => {
            let value = ReadConcernLevel::from_word(alloc, word).expect(rt, "memory");
            let is_other = matches!(&value, ReadConcernLevel::Custom(_));
            listed(rt, alloc, value.as_word(), is_other)
        }
        "full" => {
            let value = FullDocumentType::from_word(alloc, word).expect(rt, "memory");
            let is_other = matches!(&value, FullDocumentType::Other(_));
            listed(rt, alloc, value.as_word(), is_other)
        }
        "before" => {
            let value = FullDocumentBeforeChangeType::from_word(alloc, word).expect(rt, "memory");
            let is_other = matches!(&value, FullDocumentBeforeChangeType::Other(_));
            listed(rt, alloc, value.as_word(), is_other)
        }
        "operation" => {
            let value = OperationType::from_word(alloc, word).expect(rt, "memory");
            let is_other = matches!(&value, OperationType::Other(_));
            listed(rt, alloc, value.as_word(), is_other)
        }
        _ => {
            let value = ChangeNamespaceType::from_word(alloc, word).expect(rt, "memory");
            let is_other = matches!(&value, ChangeNamespaceType::Other(_));
            listed(rt, alloc, value.as_word(), is_other)
        }
    }
}

fn acknowledgment(rt: &impl Abort, alloc: Global, word: &str) -> String {
    match &Acknowledgment::from_word(alloc, word).expect(rt, "memory") {
        Acknowledgment::Nodes(n) => shown(rt, alloc, n),
        Acknowledgment::Majority => listed(rt, alloc, "majority", false),
        Acknowledgment::Custom(word) => listed(rt, alloc, word.as_str(), true),
    }
}

// A quorum by its JSON text.
fn quorum(rt: &impl Abort, alloc: Global, json: &str) -> String {
    match CommitQuorum::from_value(&json_value(rt, alloc, json)) {
        Ok(CommitQuorum::Nodes(n)) => shown(rt, alloc, &n),
        Ok(CommitQuorum::VotingMembers) => listed(rt, alloc, "votingMembers", false),
        Ok(CommitQuorum::Majority) => listed(rt, alloc, "majority", false),
        Ok(CommitQuorum::Custom(word)) => listed(rt, alloc, word.as_str(), true),
        Err(error) => failed(rt, alloc, error),
    }
}

/// What a word of a list is read as.
pub(super) fn word(rt: &impl Abort, alloc: Global, line: &str) -> String {
    let (list, word) = parted(line);
    match list {
        "strength" => {
            let number = word.parse::<u32>().unwrap_or(0);
            printed(rt, alloc, CollationStrength::try_from(number))
        }
        "case" => printed(rt, alloc, CollationCaseFirst::from_str(alloc, word)),
        "alternate" => printed(rt, alloc, CollationAlternate::from_str(alloc, word)),
        "variable" => printed(rt, alloc, CollationMaxVariable::from_str(alloc, word)),
        "return" => match ReturnDocument::from_word(alloc, word) {
            Ok(document) => shown(rt, alloc, &document.as_bool()),
            Err(error) => failed(rt, alloc, error),
        },
        "preference" => match ReadPreference::from_word(word) {
            Some(mode) => owned(rt, alloc, mode.as_word()),
            None => owned(rt, alloc, "none"),
        },
        "w" => acknowledgment(rt, alloc, word),
        "quorum" => quorum(rt, alloc, word),
        _ => kept(rt, alloc, list, word),
    }
}
