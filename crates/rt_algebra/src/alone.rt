//! The list of one item, apart from all other lists.

ghost use Rattle.rt_algebra.specs.Alone.{IsAlone};

use rt_value::List;

/// The only item of a list, or the list as it was.
pub(crate) fn alone<T: Drop>(list: List<T>) -> Result<T, List<T>>
    ensures { IsAlone list result }
{
    let mut items = list.into_vec();
    if items.len() == 1 {
        match items.pop() {
            Some(item) => Ok(item),
            None => Err(List::from_vec(items)),
        }
    } else {
        Err(List::from_vec(items))
    }
}
