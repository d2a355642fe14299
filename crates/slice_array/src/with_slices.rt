//! The choice of N, which is a part of an array's type, from a number of slices that is known only as the program runs.

/// Calls a function of a const parameter at the number of slices, which is 1 to 16: `with_slices!(slices, f(a, b))` is
/// `f::<1>(a, b)` at 1, and so on.
#[macro_export]
macro_rules! with_slices {
    ($slices:expr, $function:ident($($argument:expr),* $(,)?)) => {
        match $slices {
            1 => $function::<1>($($argument),*),
            2 => $function::<2>($($argument),*),
            3 => $function::<3>($($argument),*),
            4 => $function::<4>($($argument),*),
            5 => $function::<5>($($argument),*),
            6 => $function::<6>($($argument),*),
            7 => $function::<7>($($argument),*),
            8 => $function::<8>($($argument),*),
            9 => $function::<9>($($argument),*),
            10 => $function::<10>($($argument),*),
            11 => $function::<11>($($argument),*),
            12 => $function::<12>($($argument),*),
            13 => $function::<13>($($argument),*),
            14 => $function::<14>($($argument),*),
            15 => $function::<15>($($argument),*),
            _ => $function::<16>($($argument),*),
        }
    };
}
