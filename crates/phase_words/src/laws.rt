//! What clap makes of the words that the program's pages name.
ghost use Rattle.std.specs.Prelude.{◌≤◌, ℕ, List, Option, [], ◌∷◌, Some, None, codes, false, true};
ghost use Rattle.phase_words.specs.CommandLine.{AreRefused, AskCheck, AskColumns, AskDraw, AskEval};
ghost use Rattle.phase_words.specs.CommandLine.{AskColumnsExplained, AskHelp, Asks, check, columns, eval};
ghost use Rattle.phase_words.specs.CommandLine.{AskCheckExplained, AskDrawExplained};
ghost use Rattle.phase_words.specs.CommandLine.{AskEvalExplained, AskReplay};
ghost use Rattle.phase_words.specs.CommandLine.{AskReplayFile, AskReplayStrictly, AskVersion};
ghost use Rattle.phase_words.specs.RunLine.{AreRunRefused, AskRun, AskRunExplained, AskRunHelp};
ghost use Rattle.phase_words.specs.RunLine.{AreWorkersRefused, AsksRun, Run};
ghost use Rattle.phase_words.specs.StreamLine.{AreStreamRefused, AskStream, AskStreamExplained};
ghost use Rattle.phase_words.specs.StreamLine.{AskStreamHelp, AsksStream};

use crate::Explain;

/// `phase` and `phase replay` ask for a replay, `phase replay s` for one of the script in the file
/// s, and `--strict` for one that ends at the first line that is refused. `-` is standard input.
pub fn words_for_replay()
    ensures none { AskReplay [] }
    ensures replay { AskReplay (codes "replay" ∷ []) }
    ensures dash { AskReplay (codes "replay" ∷ codes "-" ∷ []) }
    ensures file { AskReplayFile (codes "replay" ∷ codes "s" ∷ []) (codes "s") }
    ensures strict { AskReplayStrictly (codes "replay" ∷ codes "--strict" ∷ []) (codes "-") }
    ensures strict_file { AskReplayStrictly
        (codes "replay" ∷ codes "s" ∷ codes "--strict" ∷ []) (codes "s") }
{}

/// `phase check g` and `phase eval g` ask for a check and an evaluation of the graph in the file g,
/// and `phase eval g --sink out` for its sink `out` alone.
pub fn words_for_graphs()
    ensures check { AskCheck (codes "check" ∷ codes "g" ∷ []) (codes "g") }
    ensures eval { AskEval (codes "eval" ∷ codes "g" ∷ []) (codes "g") None }
    ensures path { AskEval (codes "eval" ∷ codes "../a b.graph" ∷ []) (codes "../a b.graph") None }
    ensures sink { AskEval (codes "eval" ∷ codes "g" ∷ codes "--sink" ∷ codes "out" ∷ [])
        (codes "g") (Some (codes "out")) }
    ensures sink_first { AskEval (codes "eval" ∷ codes "--sink=out" ∷ codes "g" ∷ [])
        (codes "g") (Some (codes "out")) }
{}

/// `--workers` asks of an evaluation what is asked for without it, also of one sink. A number that
/// is none from 1 to 16 is refused, and columns are.
pub fn words_for_evaluations_by_workers()
    ensures all { AskEval (codes "eval" ∷ codes "g" ∷ codes "--workers" ∷ codes "2" ∷ [])
        (codes "g") None }
    ensures sink { AskEval
        (codes "eval" ∷ codes "--workers=16" ∷ codes "g" ∷ codes "--sink" ∷ codes "out" ∷ [])
        (codes "g") (Some (codes "out")) }
    ensures columns { AreRefused (codes "eval" ∷ codes "g" ∷ codes "--columns"
        ∷ codes "--workers" ∷ codes "2" ∷ []) }
    ensures none { AreRefused (codes "eval" ∷ codes "g" ∷ codes "--workers" ∷ codes "0" ∷ []) }
    ensures check { AreRefused (codes "check" ∷ codes "g" ∷ codes "--workers" ∷ codes "2" ∷ []) }
{}

/// `phase eval g --columns` asks for the sinks of the graph in the file g as columns. With a sink
/// of a name it is refused, and so it is behind the other commands.
pub fn words_for_columns()
    ensures columns { AskColumns (codes "eval" ∷ codes "g" ∷ codes "--columns" ∷ []) (codes "g") }
    ensures first { AskColumns (codes "eval" ∷ codes "--columns" ∷ codes "g" ∷ []) (codes "g") }
    ensures explain { AskColumnsExplained
        (codes "eval" ∷ codes "g" ∷ codes "--columns" ∷ codes "--explain" ∷ []) (codes "g") }
    ensures sink { AreRefused
        (codes "eval" ∷ codes "g" ∷ codes "--columns" ∷ codes "--sink" ∷ codes "out" ∷ []) }
    ensures sink_first { AreRefused
        (codes "eval" ∷ codes "--sink=out" ∷ codes "--columns" ∷ codes "g" ∷ []) }
    ensures check { AreRefused (codes "check" ∷ codes "g" ∷ codes "--columns" ∷ []) }
    ensures run { AreRunRefused (codes "g" ∷ codes "--columns" ∷ []) }
{}

/// `phase stream g --columns` asks for all sinks as the columns of a table, in any order of the
/// words. Beside a sink that is named it is refused.
pub fn words_for_columns_of_streams()
    ensures columns { AsksStream (codes "g" ∷ codes "--columns" ∷ []) (record {
      graph = codes "g";
      sink = None;
      files = [];
      columns = true;
      explain = Explain.No;
      beside = false;
    }) }
    ensures explain { AsksStream
        (codes "--columns" ∷ codes "--explain" ∷ codes "--beside" ∷ codes "g" ∷ []) (record {
          graph = codes "g";
          sink = None;
          files = [];
          columns = true;
          explain = Explain.Yes;
          beside = true;
        }) }
    ensures sink { AreStreamRefused
        (codes "g" ∷ codes "--columns" ∷ codes "--sink" ∷ codes "out" ∷ []) }
    ensures file { AreStreamRefused (codes "--to=out=f" ∷ codes "g" ∷ codes "--columns" ∷ []) }
    ensures twice { AreStreamRefused (codes "g" ∷ codes "--columns" ∷ codes "--columns" ∷ []) }
{}

/// `phase draw g` asks for a drawing of the graph in the file g. No file, two, and a sink are
/// refused.
pub fn words_for_drawings()
    ensures draw { AskDraw (codes "draw" ∷ codes "g" ∷ []) (codes "g") }
    ensures path { AskDraw (codes "draw" ∷ codes "../a b.graph" ∷ []) (codes "../a b.graph") }
    ensures help { AskHelp (codes "draw" ∷ codes "--help" ∷ []) }
    ensures no_file { AreRefused (codes "draw" ∷ []) }
    ensures two_files { AreRefused (codes "draw" ∷ codes "g" ∷ codes "h" ∷ []) }
    ensures sink { AreRefused (codes "draw" ∷ codes "g" ∷ codes "--sink" ∷ codes "out" ∷ []) }
{}

/// `--explain` asks of a check, of an evaluation, of a run, of a stream and of a drawing that a
/// fault is explained.
pub fn words_for_explanations()
    ensures check { AskCheckExplained
        (codes "check" ∷ codes "g" ∷ codes "--explain" ∷ []) (codes "g") }
    ensures first { AskCheckExplained
        (codes "check" ∷ codes "--explain" ∷ codes "g" ∷ []) (codes "g") }
    ensures eval { AskEvalExplained (codes "eval" ∷ codes "g" ∷ codes "--explain" ∷ [])
        (codes "g") None }
    ensures sink { AskEvalExplained
        (codes "eval" ∷ codes "--explain" ∷ codes "g" ∷ codes "--sink" ∷ codes "out" ∷ [])
        (codes "g") (Some (codes "out")) }
    ensures run { AskRunExplained (codes "g" ∷ codes "--explain" ∷ []) (codes "g") None 4 }
    ensures stream { AskStreamExplained (codes "--explain" ∷ codes "g" ∷ []) (codes "g") None }
    ensures draw { AskDrawExplained
        (codes "draw" ∷ codes "g" ∷ codes "--explain" ∷ []) (codes "g") }
{}

/// `--beside` asks of a check, of an evaluation, of a run and of a stream that the files of the
/// sources are opened beside the graph. A drawing opens none, and refuses it.
pub fn words_for_files_beside()
    ensures check { Asks (codes "check" ∷ codes "d/g" ∷ codes "--beside" ∷ [])
        (check true Explain.No (codes "d/g")) }
    ensures eval { Asks (codes "eval" ∷ codes "--beside" ∷ codes "d/g" ∷ codes "--explain" ∷ [])
        (eval true Explain.Yes (codes "d/g") None) }
    ensures columns { Asks (codes "eval" ∷ codes "d/g" ∷ codes "--columns" ∷ codes "--beside" ∷ [])
        (columns true Explain.No (codes "d/g")) }
    ensures run { AsksRun (codes "d/g" ∷ codes "--beside" ∷ []) (record {
      graph = codes "d/g";
      sink = None;
      workers = 4;
      explain = Explain.No;
      beside = true;
      counts = false;
    }) }
    ensures stream { AsksStream (codes "d/g" ∷ codes "--beside" ∷ []) (record {
      graph = codes "d/g";
      sink = None;
      files = [];
      columns = false;
      explain = Explain.No;
      beside = true;
    }) }
    ensures draw { AreRefused (codes "draw" ∷ codes "g" ∷ codes "--beside" ∷ []) }
{}

/// `--help` and `-h` ask for help, alone and behind each command.
pub fn words_for_help()
    ensures long { AskHelp (codes "--help" ∷ []) }
    ensures short { AskHelp (codes "-h" ∷ []) }
    ensures replay_long { AskHelp (codes "replay" ∷ codes "--help" ∷ []) }
    ensures replay_short { AskHelp (codes "replay" ∷ codes "-h" ∷ []) }
    ensures check_long { AskHelp (codes "check" ∷ codes "--help" ∷ []) }
    ensures eval_short { AskHelp (codes "eval" ∷ codes "-h" ∷ []) }
{}

/// `--version` and `-V` ask for the version, and no command takes them.
pub fn words_for_version()
    ensures long { AskVersion (codes "--version" ∷ []) }
    ensures short { AskVersion (codes "-V" ∷ []) }
    ensures of_eval { AreRefused (codes "eval" ∷ codes "--version" ∷ []) }
    ensures of_workers { AreWorkersRefused
        (codes "g" ∷ codes "--workers" ∷ codes "2" ∷ codes "-V" ∷ []) }
    ensures of_run { AreRunRefused (codes "-V" ∷ []) }
    ensures of_stream { AreStreamRefused (codes "--version" ∷ []) }
{}

/// A word that is no command, two files behind `replay`, a flag that is none, `run`, a sink behind
/// `check`, and `check` and `eval` with no file or with two are refused.
pub fn words_refused()
    ensures command { AreRefused (codes "bogus" ∷ []) }
    ensures run { AreRefused (codes "run" ∷ codes "g" ∷ []) }
    ensures two_scripts { AreRefused (codes "replay" ∷ codes "s" ∷ codes "t" ∷ []) }
    ensures flag { AreRefused (codes "--bogus" ∷ []) }
    ensures empty { AreRefused ([] ∷ []) }
    ensures no_file { AreRefused (codes "eval" ∷ []) }
    ensures sink_of_check { AreRefused
        (codes "check" ∷ codes "g" ∷ codes "--sink" ∷ codes "out" ∷ []) }
    ensures two_files { AreRefused (codes "check" ∷ codes "g" ∷ codes "h" ∷ []) }
{}

/// `phase run g` asks for a run of the graph in the file g by 4 workers, and `--workers` names
/// another number of them.
pub fn words_for_runs()
    ensures run { AskRun (codes "g" ∷ []) (codes "g") None 4 }
    ensures one { AskRun (codes "g" ∷ codes "--workers" ∷ codes "1" ∷ []) (codes "g") None 1 }
    ensures most { AskRun (codes "--workers=16" ∷ codes "g" ∷ []) (codes "g") None 16 }
    ensures sink { AskRun (codes "g" ∷ codes "--sink" ∷ codes "out" ∷ [])
        (codes "g") (Some (codes "out")) 4 }
    ensures both { AskRun (codes "--workers" ∷ codes "2" ∷ codes "g" ∷ codes "--sink=out" ∷ [])
        (codes "g") (Some (codes "out")) 2 }
    ensures help { AskRunHelp (codes "--help" ∷ []) }
{}

/// `--counts` asks of a run that it is told at the end what each task did. An evaluation by workers
/// and a stream refuse it.
pub fn words_for_counts()
    ensures run { AsksRun (codes "g" ∷ codes "--counts" ∷ []) (record {
      graph = codes "g";
      sink = None;
      workers = 4;
      explain = Explain.No;
      beside = false;
      counts = true;
    }) }
    ensures twice { AreRunRefused (codes "g" ∷ codes "--counts" ∷ codes "--counts" ∷ []) }
    ensures eval { AreWorkersRefused
        (codes "g" ∷ codes "--workers" ∷ codes "2" ∷ codes "--counts" ∷ []) }
    ensures stream { AreStreamRefused (codes "g" ∷ codes "--counts" ∷ []) }
{}

/// Whatever the words are, a run that they ask for is one by 1 to 16 workers.
pub fn runs_have_workers()
    ensures least { (words : List (List ℕ)) (name : List ℕ) (sink : Option (List ℕ)) (workers : ℕ)
        → AskRun words name sink workers → 1 ≤ workers }
    ensures most { (words : List (List ℕ)) (name : List ℕ) (sink : Option (List ℕ)) (workers : ℕ)
        → AskRun words name sink workers → workers ≤ 16 }
    ensures any { (words : List (List ℕ)) (what : Run) → AsksRun words what
        → (1 ≤ what.workers) × (what.workers ≤ 16) }
{}

/// A run has one graph, and no number of workers is taken but one from 1 to 16.
pub fn words_refused_of_runs()
    ensures seventeen { AreRunRefused (codes "g" ∷ codes "--workers" ∷ codes "17" ∷ []) }
    ensures zero { AreRunRefused (codes "g" ∷ codes "--workers" ∷ codes "0" ∷ []) }
    ensures minus { AreRunRefused (codes "g" ∷ codes "--workers=-1" ∷ []) }
    ensures no_number { AreRunRefused (codes "g" ∷ codes "--workers" ∷ codes "x" ∷ []) }
    ensures no_value { AreRunRefused (codes "g" ∷ codes "--workers" ∷ []) }
    ensures no_word { AreRunRefused [] }
    ensures no_file { AreRunRefused (codes "--workers" ∷ codes "2" ∷ []) }
    ensures two_files { AreRunRefused (codes "g" ∷ codes "h" ∷ []) }
{}

/// `phase stream g` asks for the values of the only sink of the graph in the file g, and `--sink`
/// names one of several.
pub fn words_for_streams()
    ensures only { AskStream (codes "g" ∷ []) (codes "g") None }
    ensures path { AskStream (codes "../a b.graph" ∷ []) (codes "../a b.graph") None }
    ensures input { AskStream (codes "-" ∷ []) (codes "-") None }
    ensures sink { AskStream (codes "g" ∷ codes "--sink" ∷ codes "out" ∷ [])
        (codes "g") (Some (codes "out")) }
    ensures sink_first { AskStream (codes "--sink=out" ∷ codes "g" ∷ [])
        (codes "g") (Some (codes "out")) }
    ensures help { AskStreamHelp (codes "--help" ∷ []) }
{}

/// A stream has one graph and one sink, and no workers. `stream` is no command of the program of
/// the others.
pub fn words_refused_of_streams()
    ensures no_word { AreStreamRefused [] }
    ensures no_file { AreStreamRefused (codes "--sink" ∷ codes "out" ∷ []) }
    ensures two_files { AreStreamRefused (codes "g" ∷ codes "h" ∷ []) }
    ensures no_sink { AreStreamRefused (codes "g" ∷ codes "--sink" ∷ []) }
    ensures two_sinks { AreStreamRefused
        (codes "g" ∷ codes "--sink=out" ∷ codes "--sink=in" ∷ []) }
    ensures workers { AreStreamRefused (codes "g" ∷ codes "--workers" ∷ codes "2" ∷ []) }
    ensures elsewhere { AreRefused (codes "stream" ∷ codes "g" ∷ []) }
{}

/// `--to` asks of a stream that the values of a sink go to a file, and may stand there more than
/// once. What stands before its first `=` is the sink. `-` is the output, so `--to out=-` asks for
/// what `--sink out` does.
pub fn words_for_files_of_sinks()
    ensures file { AsksStream (codes "g" ∷ codes "--to" ∷ codes "out=f" ∷ []) (record {
      graph = codes "g";
      sink = None;
      files = (codes "out", codes "f") ∷ [];
      columns = false;
      explain = Explain.No;
      beside = false;
    }) }
    ensures files { AsksStream
        (codes "--to=a=f" ∷ codes "g" ∷ codes "--to" ∷ codes "b=x=y" ∷ codes "--sink=c" ∷ [])
        (record {
          graph = codes "g";
          sink = Some (codes "c");
          files = (codes "a", codes "f") ∷ (codes "b", codes "x=y") ∷ [];
          columns = false;
          explain = Explain.No;
          beside = false;
        }) }
    ensures output { AskStream (codes "g" ∷ codes "--to" ∷ codes "out=-" ∷ [])
        (codes "g") (Some (codes "out")) }
{}

/// A word behind `--to` that names no file is refused, and so are words that name a sink twice, or
/// a file. Behind `eval` and `run` `--to` is no word.
pub fn words_refused_of_files_of_sinks()
    ensures no_file { AreStreamRefused (codes "g" ∷ codes "--to" ∷ codes "out" ∷ []) }
    ensures sink_twice { AreStreamRefused (codes "g" ∷ codes "--to=a=f" ∷ codes "--to=a=h" ∷ []) }
    ensures sink_again { AreStreamRefused (codes "g" ∷ codes "--to=a=f" ∷ codes "--sink=a" ∷ []) }
    ensures file_twice { AreStreamRefused (codes "g" ∷ codes "--to=a=f" ∷ codes "--to=b=f" ∷ []) }
    ensures output_twice { AreStreamRefused
        (codes "g" ∷ codes "--to=a=-" ∷ codes "--sink=b" ∷ []) }
    ensures eval { AreRefused (codes "eval" ∷ codes "g" ∷ codes "--to=a=f" ∷ []) }
    ensures run { AreRunRefused (codes "g" ∷ codes "--to=a=f" ∷ []) }
{}
