//! Laws of words. They speak of the definitions alone.
ghost use Rattle.std.specs.Prelude.{◌≡◌, [], ◌∷◌, codes, Some, None, true};
ghost use Rattle.command_words.specs.Commands.{IsShown, IsWrong, command_of, may_show};
ghost use Rattle.command_words.specs.Options.{first_group, first_node, group_words, in_d, node_words};
ghost use Rattle.command_words.specs.declared.command.Command.TheVariants.{World, Load, Node, Group, Audit};

/// The words that are the command `world`: this word, and also with the mark `--`, behind which it
/// takes nothing.
pub fn world_is_a_command()
    ensures alone { command_of (codes "world" ∷ []) ≡ Some World }
    ensures marked { command_of (codes "world" ∷ codes "--" ∷ []) ≡ Some World }
{}

/// Words that are a load: the word `load` and a number of asks from 1 to 100,000. The mark `--` may stand
/// before the number or behind it.
pub fn a_number_of_asks_is_a_load()
    ensures least { command_of (codes "load" ∷ codes "1" ∷ []) ≡ Some (Load 1) }
    ensures greatest { command_of (codes "load" ∷ codes "100000" ∷ []) ≡ Some (Load 100000) }
    ensures marked { command_of (codes "load" ∷ codes "--" ∷ codes "65" ∷ []) ≡ Some (Load 65) }
    ensures marked_behind { command_of (codes "load" ∷ codes "65" ∷ codes "--" ∷ []) ≡ Some (Load 65) }
{}

/// No words, and the forms of help and of the version, are no command. The parser answers with its text.
pub fn forms_of_help_are_no_command()
    ensures nothing { IsShown [] }
    ensures short_help { IsShown (codes "-h" ∷ []) }
    ensures help { IsShown (codes "--help" ∷ []) }
    ensures short_version { IsShown (codes "-V" ∷ []) }
    ensures version { IsShown (codes "--version" ∷ []) }
    ensures world_help { IsShown (codes "world" ∷ codes "--help" ∷ []) }
    ensures world_version { IsShown (codes "world" ∷ codes "-V" ∷ []) }
    ensures load_help { IsShown (codes "load" ∷ codes "--help" ∷ []) }
    ensures load_version { IsShown (codes "load" ∷ codes "-V" ∷ []) }
    ensures topic { command_of (codes "help" ∷ codes "world" ∷ []) ≡ None }
    ensures shown_topic { may_show (codes "help" ∷ codes "world" ∷ []) ≡ true }
{}

/// Wrong words are no command, and the parser's text is not shown.
pub fn wrong_words_are_no_command()
    ensures other { IsWrong (codes "word" ∷ []) }
    ensures empty { IsWrong ([] ∷ []) }
    ensures capital { IsWrong (codes "World" ∷ []) }
    ensures longer { IsWrong (codes "worlds" ∷ []) }
    ensures more { IsWrong (codes "world" ∷ codes "now" ∷ []) }
    ensures twice { IsWrong (codes "world" ∷ codes "world" ∷ []) }
    ensures behind_the_mark { IsWrong (codes "--" ∷ codes "world" ∷ []) }
    ensures flag { IsWrong (codes "world" ∷ codes "-x" ∷ []) }
    ensures long_flag { IsWrong (codes "--world" ∷ []) }
    ensures no_text { IsWrong ((255 ∷ []) ∷ []) }
{}

/// Words that name no number of asks are no load, and the parser's text is not shown.
pub fn other_numbers_are_no_load()
    ensures missing { IsWrong (codes "load" ∷ []) }
    ensures none { IsWrong (codes "load" ∷ codes "0" ∷ []) }
    ensures too_great { IsWrong (codes "load" ∷ codes "100001" ∷ []) }
    ensures leading_zero { IsWrong (codes "load" ∷ codes "01" ∷ []) }
    ensures plus { IsWrong (codes "load" ∷ codes "+1" ∷ []) }
    ensures minus { IsWrong (codes "load" ∷ codes "-1" ∷ []) }
    ensures no_number { IsWrong (codes "load" ∷ codes "x" ∷ []) }
    ensures empty_number { IsWrong (codes "load" ∷ [] ∷ []) }
    ensures more { IsWrong (codes "load" ∷ codes "1" ∷ codes "2" ∷ []) }
    ensures option { IsWrong (codes "load" ∷ codes "--N=1" ∷ []) }
{}

/// Words that are a node: the word `node`, and each option with a value in its range. A value stands behind its option,
/// or behind `=`. The options may stand in any order.
pub fn values_in_range_are_a_node()
    ensures usual { command_of (node_words (codes "1") (codes "d") (codes "736d") (codes "4,1") []) ≡ Some (Node (first_node 1024)) }
    ensures period { command_of (node_words (codes "1") (codes "d") (codes "736d") (codes "4,1") (codes "--period" ∷ codes "4" ∷ [])) ≡ Some (Node (first_node 4)) }
    ensures joined { command_of (codes "node" ∷ codes "--group=4,1" ∷ codes "--secret=736d" ∷ codes "--dir=d" ∷ codes "--id=1" ∷ []) ≡ Some (Node (first_node 1024)) }
{}

/// Words that lack an option or give it another value are no node, and the parser's text is not shown.
pub fn other_values_are_no_node()
    ensures none { IsWrong (codes "node" ∷ []) }
    ensures no_group { IsWrong (codes "node" ∷ codes "--id" ∷ codes "1" ∷ codes "--dir" ∷ codes "d" ∷ codes "--secret" ∷ codes "736d" ∷ []) }
    ensures no_member { IsWrong (node_words (codes "0") (codes "d") (codes "736d") (codes "4,1") []) }
    ensures great_member { IsWrong (node_words (codes "65536") (codes "d") (codes "736d") (codes "4,1") []) }
    ensures no_secret { IsWrong (node_words (codes "1") (codes "d") [] (codes "4,1") []) }
    ensures half_a_byte { IsWrong (node_words (codes "1") (codes "d") (codes "736") (codes "4,1") []) }
    ensures capital { IsWrong (node_words (codes "1") (codes "d") (codes "736D") (codes "4,1") []) }
    ensures few_members { IsWrong (node_words (codes "1") (codes "d") (codes "736d") (codes "3,1") []) }
    ensures many_members { IsWrong (node_words (codes "1") (codes "d") (codes "736d") (codes "32,10") []) }
    ensures many_faulty { IsWrong (node_words (codes "1") (codes "d") (codes "736d") (codes "31,11") []) }
    ensures one_number { IsWrong (node_words (codes "1") (codes "d") (codes "736d") (codes "4") []) }
    ensures short_period { IsWrong (node_words (codes "1") (codes "d") (codes "736d") (codes "4,1") (codes "--period" ∷ codes "3" ∷ [])) }
    ensures long_period { IsWrong (node_words (codes "1") (codes "d") (codes "736d") (codes "4,1") (codes "--period" ∷ codes "1048577" ∷ [])) }
    ensures twice { IsWrong (node_words (codes "1") (codes "d") (codes "736d") (codes "4,1") (codes "--id" ∷ codes "1" ∷ [])) }
    ensures help { IsShown (codes "node" ∷ codes "--help" ∷ []) }
{}

/// The words that are the command `audit`: this word, and also with the mark `--`, behind which it
/// takes nothing.
pub fn audit_is_a_command()
    ensures alone { command_of (codes "audit" ∷ []) ≡ Some Audit }
    ensures marked { command_of (codes "audit" ∷ codes "--" ∷ []) ≡ Some Audit }
{}

/// Words that begin with `audit` and are no command. To the forms of help and of the version the parser
/// answers with its text.
pub fn other_audits_are_no_command()
    ensures help { IsShown (codes "audit" ∷ codes "--help" ∷ []) }
    ensures version { IsShown (codes "audit" ∷ codes "-V" ∷ []) }
    ensures capital { IsWrong (codes "Audit" ∷ []) }
    ensures longer { IsWrong (codes "audits" ∷ []) }
    ensures more { IsWrong (codes "audit" ∷ codes "now" ∷ []) }
    ensures twice { IsWrong (codes "audit" ∷ codes "audit" ∷ []) }
    ensures other_command { IsWrong (codes "audit" ∷ codes "world" ∷ []) }
    ensures behind_the_mark { IsWrong (codes "--" ∷ codes "audit" ∷ []) }
    ensures option { IsWrong (codes "audit" ∷ codes "--dir" ∷ codes "D" ∷ []) }
    ensures flag { IsWrong (codes "audit" ∷ codes "-x" ∷ []) }
{}

/// Words that are a run of a group: the word `group`, and each option with a value in its range. A value
/// stands behind its option, or behind `=`. The options may stand in any order.
pub fn values_in_range_are_a_group()
    ensures usual { command_of (group_words (codes "4") (codes "1") (codes "8") (codes "1000000000") (codes "3") in_d) ≡ Some (Group (first_group 1000000000 3)) }
    ensures no_turns { command_of (group_words (codes "4") (codes "1") (codes "8") (codes "0") (codes "0") in_d) ≡ Some (Group (first_group 0 0)) }
    ensures most { command_of (group_words (codes "4") (codes "1") (codes "8") (codes "9223372036854775808") (codes "10000") in_d) ≡ Some (Group (first_group 9223372036854775808 10000)) }
    ensures joined { command_of (codes "group" ∷ codes "--dir=d" ∷ codes "--asks=3" ∷ codes "--turns=5" ∷ codes "--period=8" ∷ codes "--f=1" ∷ codes "--n=4" ∷ []) ≡ Some (Group (first_group 5 3)) }
{}

/// Words that lack an option, have another one, or give one another value are no run of a group, and the
/// parser's text is not shown.
pub fn other_values_are_no_group()
    ensures none { IsWrong (codes "group" ∷ []) }
    ensures no_dir { IsWrong (group_words (codes "4") (codes "1") (codes "8") (codes "5") (codes "3") []) }
    ensures few_members { IsWrong (group_words (codes "3") (codes "1") (codes "8") (codes "5") (codes "3") in_d) }
    ensures no_members { IsWrong (group_words (codes "0") (codes "0") (codes "8") (codes "5") (codes "3") in_d) }
    ensures many_members { IsWrong (group_words (codes "32") (codes "10") (codes "32") (codes "5") (codes "3") in_d) }
    ensures many_faulty { IsWrong (group_words (codes "31") (codes "11") (codes "31") (codes "5") (codes "3") in_d) }
    ensures short_period { IsWrong (group_words (codes "4") (codes "1") (codes "3") (codes "5") (codes "3") in_d) }
    ensures long_period { IsWrong (group_words (codes "4") (codes "1") (codes "1048577") (codes "5") (codes "3") in_d) }
    ensures many_turns { IsWrong (group_words (codes "4") (codes "1") (codes "8") (codes "9223372036854775809") (codes "3") in_d) }
    ensures many_asks { IsWrong (group_words (codes "4") (codes "1") (codes "8") (codes "5") (codes "10001") in_d) }
    ensures leading_zero { IsWrong (group_words (codes "4") (codes "1") (codes "8") (codes "5") (codes "03") in_d) }
    ensures no_number { IsWrong (group_words (codes "4") (codes "x") (codes "8") (codes "5") (codes "3") in_d) }
    ensures twice { IsWrong (group_words (codes "4") (codes "1") (codes "8") (codes "5") (codes "3") (codes "--n" ∷ codes "4" ∷ in_d)) }
    ensures secret { IsWrong (group_words (codes "4") (codes "1") (codes "8") (codes "5") (codes "3") (codes "--secret" ∷ codes "736d" ∷ in_d)) }
    ensures more { IsWrong (group_words (codes "4") (codes "1") (codes "8") (codes "5") (codes "3") (codes "word" ∷ in_d)) }
    ensures help { IsShown (codes "group" ∷ codes "--help" ∷ []) }
{}
