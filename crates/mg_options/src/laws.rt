//! What holds of the words.
ghost use Rattle.std.specs.Prelude.{◌≡◌, ◌<◌, ◌^◌, ℕ, Some, pos};
ghost use Rattle.mg_bson.specs.Tree.{int32};
ghost use Rattle.mg_link.specs.Words.{AreReadBack, spelled};
ghost use Rattle.mg_options.specs.Collations.{alternate_word, alternates, case_first_word, case_firsts, max_variable_word, max_variables, strength_level};
ghost use Rattle.mg_options.specs.Printing.{word_value};
ghost use Rattle.mg_options.specs.Tables.{full_document_before_word, full_document_word, full_documents, full_documents_before, quorum_members, quorum_of, return_document_word, return_documents};
ghost use Rattle.mg_options.specs.declared.collation.CollationStrength.{CollationStrength};
ghost use Rattle.mg_options.specs.declared.write_words.CommitQuorum.TheVariants as quorums;

/// Each word of the tables is read back as the value that is written so.
pub fn words_are_read_back()
    ensures case_first { AreReadBack case_first_word case_firsts case_firsts }
    ensures alternate { AreReadBack alternate_word alternates alternates }
    ensures max_variable { AreReadBack max_variable_word max_variables max_variables }
    ensures full_document { AreReadBack full_document_word full_documents full_documents }
    ensures before { AreReadBack full_document_before_word full_documents_before full_documents_before }
    ensures return_document { AreReadBack return_document_word return_documents return_documents }
{}

/// No two strengths have the same level, so a level is read back as the strength that has it.
pub fn levels_are_read_back()
    ensures { (a b : CollationStrength) → strength_level a ≡ strength_level b → a ≡ b }
{}

/// A quorum that is a number, or a word of its table, is read back from the value that it prints as.
pub fn quorums_are_read_back()
    ensures nodes { (n : ℕ) → n < 2 ^ 31 → quorum_of (int32 (pos n)) ≡ Some (quorum_members (quorums.Nodes n)) }
    ensures voting_members { quorum_of (word_value (spelled "votingMembers")) ≡ Some (quorum_members quorums.VotingMembers) }
    ensures majority { quorum_of (word_value (spelled "majority")) ≡ Some (quorum_members quorums.Majority) }
{}
