//! What holds of label configs: each function's contract is a law, and its body does nothing.

ghost use Rattle.labels.specs.Laws.{ConfigsReadBack, ConfigsAreToldApart, ChoicesAreChosen};

/// A config that is written is read back.
pub fn configs_read_back()
    ensures { ConfigsReadBack }
{}

/// A block holds at most one config.
pub fn configs_are_told_apart()
    ensures { ConfigsAreToldApart }
{}

/// The choice among the configs that were read from an image is the one that the image gives.
pub fn choices_are_chosen()
    ensures { ChoicesAreChosen }
{}
