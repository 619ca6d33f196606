//! Which command the words that the program's pages name are for. The contracts are the laws.
ghost use Rattle.std.specs.Prelude.{◌≡◌, List, [], ◌∷◌, codes, false, true};
ghost use Rattle.std.specs.List.{list_any};
ghost use Rattle.clap.specs.Words.{Text};
ghost use Rattle.phase.specs.Ways.{by_workers, names_workers, others, run, stream, way_of};

/// `run` and `stream` have the words behind their names, and behind `help` they are asked for
/// help. So has `eval`, where one of them names workers. All else is for the others.
pub fn words_for_commands()
    ensures run { (own : List Text) → way_of (codes "run" ∷ own) ≡ run own }
    ensures stream { (own : List Text) → way_of (codes "stream" ∷ own) ≡ stream own }
    ensures help_run { (more : List Text)
        → way_of (codes "help" ∷ codes "run" ∷ more) ≡ run (codes "--help" ∷ []) }
    ensures help_stream { (more : List Text)
        → way_of (codes "help" ∷ codes "stream" ∷ more) ≡ stream (codes "--help" ∷ []) }
    ensures none { way_of [] ≡ others }
    ensures replay { (more : List Text) → way_of (codes "replay" ∷ more) ≡ others }
    ensures check { (more : List Text) → way_of (codes "check" ∷ more) ≡ others }
    ensures eval { (more : List Text) → list_any names_workers more ≡ false
        → way_of (codes "eval" ∷ more) ≡ others }
    ensures eval_by_workers { (more : List Text) → list_any names_workers more ≡ true
        → way_of (codes "eval" ∷ more) ≡ by_workers more }
{}

/// Help and the version of the program are the others' too.
pub fn words_for_others()
    ensures draw { (more : List Text) → way_of (codes "draw" ∷ more) ≡ others }
    ensures help { way_of (codes "help" ∷ []) ≡ others }
    ensures help_check { (more : List Text)
        → way_of (codes "help" ∷ codes "check" ∷ more) ≡ others }
    ensures help_word { (more : List Text) → way_of (codes "--help" ∷ more) ≡ others }
    ensures version { (more : List Text) → way_of (codes "--version" ∷ more) ≡ others }
{}
