//! Laws of the grammar of a line. The contract of each function is the law.
ghost use Rattle.std.specs.Prelude.{◌≡◌, List};
ghost use Rattle.phase_base.specs.Words.{Word};
ghost use Rattle.graph_text.specs.Decls.{Decl, Spells};
ghost use Rattle.graph_text.specs.declared.version.Version.{Version};

pub use phase_base::words_laws::limits_are;

/// Words declare one thing at most, in whichever version they are read.
pub fn one_declaration()
    ensures { (version other : Version) (words : List Word) (d e : Decl)
        → Spells version words d → Spells other words e → d ≡ e }
{}
