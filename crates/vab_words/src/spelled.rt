// What words that are written out ask for.
ghost use Rattle.std.specs.Prelude.{◌≡◌, true, false, List, ℕ, [], ◌∷◌, Some, None, IfSome, codes};
ghost use Rattle.std.specs.Prelude.{option_map};
ghost use Rattle.vab_words.specs.Spelled.{AsksBy, IsPlain, MakesBy, is_verb_name, name_of};
ghost use Rattle.vab_words.specs.Values.{blocks_of, slot_of, turns_of};
ghost use Rattle.vab_words.specs.Verbs.{Activate, Adopt, BeginMerge, Boot, Cancel, Digest, Install};
ghost use Rattle.vab_words.specs.Verbs.{Make};
ghost use Rattle.vab_words.specs.Verbs.{Mark, Merge, Print, Serve, Status, demo_of, make_of};
ghost use Rattle.vab_words.specs.Verbs.{verb_of};

/// What the definition says of words that are written out. It does nothing.
pub fn spelled_out()
    ensures make { verb_of (codes "make" ∷ []) ≡ Some (Make 0 65536) }
    ensures make_limit { MakesBy (codes "--limit") (λ text. make_of (Some text) None) }
    ensures make_metadata_max { MakesBy (codes "--metadata-max")
        (λ text. make_of None (Some text)) }
    ensures make_both { (limit metadata_max : List ℕ) → IsPlain limit → IsPlain metadata_max
        → verb_of
        (codes "make" ∷ codes "--limit" ∷ limit ∷ codes "--metadata-max" ∷ metadata_max ∷ [])
        ≡ make_of (Some limit) (Some metadata_max) }
    ensures adopt { AsksBy (codes "adopt") (λ text. option_map Adopt (slot_of text)) }
    ensures serve { verb_of (codes "serve" ∷ []) ≡ Some (Serve false 0) }
    ensures serve_fresh { verb_of (codes "serve" ∷ codes "--fresh" ∷ []) ≡ Some (Serve true 0) }
    ensures serve_turns { (text : List ℕ) → IsPlain text
        → verb_of (codes "serve" ∷ codes "--turns" ∷ text ∷ [])
        ≡ option_map (Serve false) (turns_of (Some text)) }
    ensures serve_fresh_turns { (text : List ℕ) → IsPlain text
        → verb_of (codes "serve" ∷ codes "--fresh" ∷ codes "--turns" ∷ text ∷ [])
        ≡ option_map (Serve true) (turns_of (Some text)) }
    ensures install { verb_of (codes "install" ∷ []) ≡ Some Install }
    ensures boot { verb_of (codes "boot" ∷ []) ≡ Some Boot }
    ensures mark { verb_of (codes "mark" ∷ []) ≡ Some Mark }
    ensures begin_merge { verb_of (codes "begin-merge" ∷ []) ≡ Some BeginMerge }
    ensures merge { AsksBy (codes "merge") (λ text. option_map Merge (blocks_of text)) }
    ensures merge_five { verb_of (codes "merge" ∷ codes "5" ∷ []) ≡ Some (Merge 5) }
    ensures cancel { verb_of (codes "cancel" ∷ []) ≡ Some Cancel }
    ensures activate { AsksBy (codes "activate") (λ text. option_map Activate (slot_of text)) }
    ensures print { AsksBy (codes "print") (λ text. Some (Print text)) }
    ensures digest { AsksBy (codes "digest") (λ text. Some (Digest text)) }
    ensures status { verb_of (codes "status" ∷ []) ≡ Some Status }
    ensures demo { AsksBy (codes "demo") (λ text. demo_of text None) }
    ensures demo_scale { (seed scale : List ℕ) → IsPlain seed → IsPlain scale
        → verb_of (codes "demo" ∷ seed ∷ codes "--scale" ∷ scale ∷ []) ≡ demo_of seed (Some scale) }
    ensures print_any { (text : List ℕ)
        → verb_of (codes "print" ∷ codes "--" ∷ text ∷ []) ≡ Some (Print text) }
    ensures digest_any { (text : List ℕ)
        → verb_of (codes "digest" ∷ codes "--" ∷ text ∷ []) ≡ Some (Digest text) }
    ensures nothing { verb_of [] ≡ None }
    ensures other { (word : List ℕ) (rest : List (List ℕ))
        → is_verb_name word ≡ false
        → verb_of (word ∷ rest) ≡ None }
    ensures first { (word : List ℕ) (rest : List (List ℕ))
        → IfSome (verb_of (word ∷ rest)) (λ m. word ≡ name_of m) }
{}
