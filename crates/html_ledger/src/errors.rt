// The numbers of the tokens with an error of tree construction.
ghost use Rattle.std.specs.Prelude.{◌≡◌, ◌<◌, ◌∷◌, [], ◌++◌, cond, vec_len, vec_capacity};

/// Adds the number of a token, where it has an error.
pub(crate) fn add_if(errors: &mut Vec<u64>, number: u64, told: bool)
    requires room { vec_len errors.old < vec_capacity errors.old }
    ensures added { errors.new.items ≡ cond told (errors.old.items ++ number ∷ []) errors.old.items }
{
    if told {
        let _ = errors.push(number);
    }
}
