//! What is drawn of seed 7, worked out by hand, as theorems.

ghost use Rattle.std.specs.Prelude.{◌≡◌, [], ◌∷◌, codes};
ghost use Rattle.sample_styles.specs.Drawing.{next, style_after, behind_style};
ghost use Rattle.sample_styles.specs.SampleStyles.{sample_styles};

/// The first numbers of the generator.
pub fn the_first_numbers_of_seed_7()
    ensures one { next 7 ≡ 1282168116 }
    ensures two { next 1282168116 ≡ 642666333 }
    ensures three { next 642666333 ≡ 712265938 }
    ensures four { next 712265938 ≡ 1486001571 }
    ensures five { next 1486001571 ≡ 2131988640 }
{}

/// Its first style takes those five numbers: two contests of three targets, with one vote in the
/// first and two in the second.
pub fn the_first_style_of_seed_7()
    ensures shape { style_after 7 ≡
        record { limit = 1; targets = 3 } ∷ record { limit = 2; targets = 3 } ∷ [] }
    ensures behind { behind_style 7 ≡ 2131988640 }
{}

/// Its first two styles, with their ids: the second goes on where the first ended.
pub fn the_first_styles_of_seed_7()
    ensures { sample_styles 7 2 ≡
        record {
          id = codes "s1";
          shape =
              record { limit = 1; targets = 3 } ∷ record { limit = 2; targets = 3 } ∷ [];
        } ∷
        record {
          id = codes "s2";
          shape =
              record { limit = 1; targets = 3 } ∷ record { limit = 2; targets = 2 } ∷
              record { limit = 2; targets = 2 } ∷ [];
        } ∷ [] }
{}
