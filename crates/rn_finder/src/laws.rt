//! A law on what may be searched, the contract of a function that does nothing. Searches ask that
//! each token has its place's kind and holds no new instance. By the law that is so of the first
//! marking and of the table of each state of a run, so no caller looks at tokens for it.
ghost use Rattle.rn_finder.specs.Premises.{InitialTokensFit, StandingTokensFit};

/// The tokens of the first marking fit, and so do those of the table of each state of a run: at its
/// end tokens are sound (`tokens_stay_sound` of `rn_model`), and the table stands for that marking.
pub fn tokens_fit()
    ensures initial { InitialTokensFit }
    ensures standing { StandingTokensFit }
{}
