//! How the code of each operation passes the sweep, and the certificate of a program that is put together of such code.
#![tactic(auto)]
